// No code: the order of the active list in the new mode, and what it owes to geometry, stand in specs/ and proofs/.
#![tactic(auto)]
