// Why each record of a finished job has an outline or none. No code yet.
#![tactic(auto)]
