// A job: two networks and a relation in one input, and the verdict on it. The verdict is one definite value for every input:
// specs/Verdicts.antt has it, and says in the subject's words what its number and its count tell.
#![tactic(auto)]

pub mod fault;
pub mod job;
mod load;
pub mod outcome;
mod sides;
