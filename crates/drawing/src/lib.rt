// The drawing of a job, without the numbers of its points: finishing depends on it only. No code.
#![tactic(auto)]
