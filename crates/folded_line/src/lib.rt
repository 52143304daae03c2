// No code: the pieces of a folded line, m times x folded at 0 and H, and what is promised of them.
#![tactic(auto)]
