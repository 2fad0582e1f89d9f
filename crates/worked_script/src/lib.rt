// The worked script (rule S10) played by computation: proofs only.

#![tactic(auto)]
