// What is promised of each chart of a batch stands in specs/.
#![tactic(auto)]
