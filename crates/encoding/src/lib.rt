// A drawing as a job's bytes, and that they are read back as that drawing. No code.
#![tactic(auto)]
