// A replay that ends well is a run: definitions and theorems; there is no code here.

#![tactic(auto)]
