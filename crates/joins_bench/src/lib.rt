// Joins, worked: answers and rings that are computed. No code.
#![tactic(auto)]
