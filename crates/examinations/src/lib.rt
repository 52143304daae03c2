// No code: how many adjacent pairs a sweep examines is told in specs/, how many it may be in proofs/.
#![tactic(auto)]
