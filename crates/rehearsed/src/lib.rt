// Every rehearsal is a run: definitions and theorems; there is no code here.

#![tactic(auto)]
