// No code: what is promised of the calls on points, on two pieces and on a file, over what a caller has.
#![tactic(auto)]
