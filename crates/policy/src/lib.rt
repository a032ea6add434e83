// No code: the policy that the monitor keeps (specs/) and the proof that it is safe and never refuses needlessly (proofs/).
#![tactic(auto)]
