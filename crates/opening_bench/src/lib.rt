// Worked jobs with joins and level segments, by computing the definition of opening. No code.
#![tactic(auto)]
