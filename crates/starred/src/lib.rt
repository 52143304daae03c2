// No code: the starred examples of docs/CHART.md and the upright gap, as tables over what the calls' contracts cite.
#![tactic(auto)]
