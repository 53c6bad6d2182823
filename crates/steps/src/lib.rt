// What the steps of every walk, run and set say, and the list that stepping gives: definitions and laws, no code.
#![tactic(auto)]
