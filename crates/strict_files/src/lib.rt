// Which files the strict gate accepts, and where it breaks, said without its steps: definitions and laws, no code.
#![tactic(auto)]
