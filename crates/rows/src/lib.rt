// The program of a unit: rows, each enabled at a location and under a guard.
#![tactic(auto)]

pub mod layout;
pub mod program;
pub mod row;
pub mod unit;
