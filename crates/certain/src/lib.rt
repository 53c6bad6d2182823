// Demand 3: the records listed for bytes that have arrived are the longest list with which the finished list of every
// file that starts so begins. A statement and its proof, no code.
#![tactic(auto)]
