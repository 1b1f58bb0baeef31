// A network of units under a mobility rule of any kind, as a system.
#![tactic(auto)]

pub mod fault;
mod lawful;
mod load;
mod movement;
pub mod network;
pub mod system;
