// A board and its events: definitions and theorems; there is no code here.

#![tactic(auto)]
