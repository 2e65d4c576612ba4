// Opening: from a job's bytes to joined rings, each at its start.
#![tactic(auto)]

pub mod clear;
pub mod open;
pub mod start;
