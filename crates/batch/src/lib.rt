// No code: what is right of several charts in one call, and what is promised of it.
#![tactic(auto)]
