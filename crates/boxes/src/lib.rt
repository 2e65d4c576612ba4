// The box of a ring, and what each act of a step does to it. No code.
#![tactic(auto)]
