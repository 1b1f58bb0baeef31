// Mobility rules: which placements of the units are allowed.
#![tactic(auto)]

pub mod both;
pub mod fault;
pub mod link;
pub mod links;
pub mod parking;
pub mod place;
pub mod rule;
pub mod tuner;
pub mod tuners;
