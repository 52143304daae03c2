// No code: what the sweep needs of geometry, supplied from integers, stands in proofs/.
#![tactic(auto)]
