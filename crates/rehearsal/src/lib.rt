// A rehearsal: a relation is judged, a play begins at one of its pairs, and a list of calls is made. What comes out is the
// law of judge, play and runs, in specs/Law.antt.
#![tactic(auto)]

pub mod attempt;
pub mod fault;
mod make;
pub mod playing;
pub mod rehearse;
