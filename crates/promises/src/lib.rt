// No code: what is promised of all pairs and of the sweep, of every outcome that a contract allows, over what a caller has.
#![tactic(auto)]
