// No code: what writing a chart's file answers and leaves, and what is promised of it.
#![tactic(auto)]
