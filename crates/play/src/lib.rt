// A play between two systems over an accepted relation: one side challenges with a step, the other replies, and a value
// settles where both land. A play holds numbers only; the systems and the relation are handed to each call.
#![tactic(auto)]

pub mod answered;
pub mod challenged;
pub mod fault;
pub mod level;
mod present;
