// The lone ring, its path, and the forest of rings: definitions and theorems for the crates above. No code.
#![tactic(auto)]
