// The vocabulary: values, ranges, group sets, states, pairs, placements and labels, with their bytes.
#![tactic(auto)]

mod bytes;
pub mod group_set;
pub mod label;
pub mod placement;
mod placements;
pub mod range;
mod ranges;
pub mod sameness;
pub mod state;
pub mod text;
pub mod unit_state;
pub mod value;
