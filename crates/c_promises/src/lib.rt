// No code: what is promised of the lists of pairs that a caller in C is given.
#![tactic(auto)]
