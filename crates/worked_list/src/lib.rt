// The worked list of calls, by computation (specs/, proofs/). There is no code.
#![tactic(auto)]
