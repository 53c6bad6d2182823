// How long an outline's text is. A statement and its proof, no code.
#![tactic(auto)]
