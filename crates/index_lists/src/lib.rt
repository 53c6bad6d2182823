// No code: what adding and asking mean, over the list of records. docs/RULES.md, "L10. An index beside the file".
#![tactic(auto)]
