// No code: one outcome of each function that is no entry point, of the memory in use.
#![tactic(auto)]
