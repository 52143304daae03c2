// No code: that a piece taken out takes its own pairs with it and no other stands in specs/ and proofs/.
#![tactic(auto)]
