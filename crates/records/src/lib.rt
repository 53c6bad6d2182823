// The lists of records that the two walks give, which demands 2 and 3 speak of: definitions and laws, no code.
#![tactic(auto)]
