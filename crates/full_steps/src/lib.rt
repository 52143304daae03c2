// No code: the new mode's definitions stand in specs/, the proof of what is promised of it in proofs/.
#![tactic(auto)]
