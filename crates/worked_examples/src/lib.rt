// Worked examples: document 01's starred trial runs and Table II of paper 004 as one table of cases, and a list of calls worked out on memory
// that holds anything (specs/), each proved by computing the definitions (proofs/). There is no code here.
#![tactic(auto)]
