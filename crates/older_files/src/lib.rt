// No functions: statements of files from before a chart could have 200 pieces (specs/), and their proofs (proofs/).
#![tactic(auto)]
