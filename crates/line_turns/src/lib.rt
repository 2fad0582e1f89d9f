// A step of the player is the event of its line: laws; there is no code here.

#![tactic(auto)]
