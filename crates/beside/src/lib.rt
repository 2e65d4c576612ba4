// Boxes beside the rings, through steps: laws. No code.
#![tactic(auto)]
