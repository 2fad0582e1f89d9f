// The barrier over many steps, apart from bytes and states: sums, claims, one phase, all phases. Theorems only.

#![tactic(auto)]
