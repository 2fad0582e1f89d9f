// After a call in place the words hold the state that its definition gives: proofs only.

#![tactic(auto)]
