// Which files have a random index pack, and which pairs are its, said without the search: definitions and laws, no code.
#![tactic(auto)]
