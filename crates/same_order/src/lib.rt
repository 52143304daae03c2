// No code: that the list in plain order is that of a full sweep stands in specs/ and proofs/.
#![tactic(auto)]
