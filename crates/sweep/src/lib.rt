// No code: the sweep's definitions stand in specs/, the proof of what is promised of it in proofs/.
#![tactic(auto)]
