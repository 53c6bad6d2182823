// The lists of frames that the three walks give, and that frames are counted over demand 2's list: definitions and laws, no code.
#![tactic(auto)]
