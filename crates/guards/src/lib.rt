// No code: a list of tests as data (specs), and what it says that all have passed or one has not (proofs).
#![tactic(auto)]
