// The walk over the stored frames of a node: what it holds after each frame, and the laws of that. There is no code here.

#![tactic(auto)]
