// No code: what two files in one room promise each other. docs/RULES.md, "L11. Two uploads, one index room".
#![tactic(auto)]
