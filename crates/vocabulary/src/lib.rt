// No code: the words that the definitions of all crates share (specs/) and the laws about them (proofs/).
#![tactic(auto)]
