// No code: the records of a walk, added in order. docs/RULES.md, "L10. An index beside the file".
#![tactic(auto)]
