// `convert_horz_segs_to_joins`: the job's level segments, sorted as whole records, become joins; its second loop over pairs.
#![tactic(auto)]

pub mod convert;
pub mod pairs;
