// No code: what is promised of the new mode's calls stands in specs/, its proof in proofs/.
#![tactic(auto)]
