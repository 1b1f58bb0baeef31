// The records of a job's input: questions 22 and 23, the settings, and the payloads of one kind and side.
#![tactic(auto)]

pub mod frame;
pub mod gather;
pub mod kind;
pub mod setting;
