// No code: specs/ tells the sweep's step on the arrays that the code keeps, proofs/ that it is the step of `sweep`.
#![tactic(auto)]
