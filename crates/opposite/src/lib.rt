// A ring's path forward and its path reversed: the same points in exactly opposite order. No code.
#![tactic(auto)]
