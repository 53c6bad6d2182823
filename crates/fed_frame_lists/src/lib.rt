// What a frame walk that is fed has answered is the certain list: docs/RULES.md, "L13. Certain frames". Theorems, no code.
#![tactic(auto)]
