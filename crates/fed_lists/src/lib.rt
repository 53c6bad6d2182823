// What a fed walker has answered is the walk's list: docs/RULES.md, "L2. A walker fed from the socket". Theorems, no code.
#![tactic(auto)]
