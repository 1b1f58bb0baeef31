// The 16 bytes of a verdict.
#![tactic(auto)]

pub mod answer;
