// What the part promises, in specs/Promises.antt. There is no code here: every promise is filled from the crates below.

#![tactic(auto)]
