// Whether the words of a stored frame may stand where they are: the test, and its laws. There is no code here.

#![tactic(auto)]
