// What an outline does not tell: leaf values. A statement and its proof, no code.
#![tactic(auto)]
