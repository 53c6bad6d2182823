// No code: what the report of two recordings of one take is as a whole: docs/RULES.md, "L14. Two recordings of one take". When it
// is empty, what exchanging the files changes, its order, and that stepping gives it.
#![tactic(auto)]
