// No code: the lines of a listing.
#![tactic(auto)]
