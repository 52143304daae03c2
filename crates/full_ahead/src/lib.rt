// No code: that the arrays of the new mode tell the next point of a run, and the pieces that start there.
#![tactic(auto)]
