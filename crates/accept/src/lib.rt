// No code: the inspection as one function of the bytes (specs), and that it accepts exactly the sound pools (proofs).
#![tactic(auto)]
