// Worked numbers of the requests, as statements about the definitions: docs/RULES.md, from "L5. Last tag wins" on. No code.
#![tactic(auto)]
