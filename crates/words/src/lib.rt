// What a job is answered, in words for a person.
#![tactic(auto)]

pub mod explain;
pub mod fault;
pub mod label;
pub mod step;
#[cfg(test)]
mod tests;
pub mod told;
pub mod units;
