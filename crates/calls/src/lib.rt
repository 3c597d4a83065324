// The calls: each call of document 01 as a total function on values and lists (specs/), with the order of its refusals, and laws (proofs/).
// Contracts of the code cite these definitions; there is no code here.
#![tactic(auto)]
