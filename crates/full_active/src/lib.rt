// No code: the active list of the new mode, in the first `live` places of an array, and its lanes beside it; what is found in
// it, gathered from it and written into it at a point, and that this is the step done in place.
#![tactic(auto)]
