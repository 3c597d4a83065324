// The trials of out by one pattern and home by another, by computation (specs/, proofs/). There is no code.
#![tactic(auto)]
