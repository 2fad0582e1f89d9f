// The boards to try (rule T8), proved of the definitions; there is no code here.

#![tactic(auto)]
