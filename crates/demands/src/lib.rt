// The demands: what the calls must do together, the ledger that they are measured by, and what the definitions mean (specs/), proved of the calls'
// definitions (proofs/). There is no code here.
#![tactic(auto)]
