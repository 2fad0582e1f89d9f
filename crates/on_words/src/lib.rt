// What a call makes of lent words, by what it makes of the state that they hold: definitions and laws.

#![tactic(auto)]
