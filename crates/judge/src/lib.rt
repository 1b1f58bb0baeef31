// The judge: whether a relation between two systems is a late strong bisimulation. One text for every two systems, which
// are known by their meaning alone.
#![tactic(auto)]

pub mod aligned;
mod buckets;
pub mod comparison;
pub mod fault;
mod fingerprints;
mod firsts;
mod held;
mod held_step;
mod index;
mod matches;
mod matching;
mod received;
pub mod reply;
mod room;
mod steps;
#[cfg(test)]
mod tests;
pub mod verdict;
