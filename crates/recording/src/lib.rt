// Recordings of a board: what they hold, their bytes, the test behind refusal 18, and the laws of these.
// There is no code here.

#![tactic(auto)]
