// Laying two drawings together, worked: answers and words that are computed. No code.
#![tactic(auto)]
