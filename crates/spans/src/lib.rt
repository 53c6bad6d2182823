// What a step reads: an item's step its key and its length, the walk's rules at a place up to a value. Laws, no code.
#![tactic(auto)]
