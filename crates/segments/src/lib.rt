// Level segments: the walks and the first loop of `convert_horz_segs_to_joins`, which runs each segment to both sides. Pairs of them are joined in `converting`.
#![tactic(auto)]

pub mod level;
pub mod update;
