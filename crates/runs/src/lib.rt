// Whole runs of a board: definitions and theorems; there is no code here.

#![tactic(auto)]
