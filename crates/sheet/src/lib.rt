// Service sheets: systems that are written out as a table of rows.
#![tactic(auto)]

pub mod fault;
mod layout;
mod load;
mod row;
pub mod sheet;
pub mod states;
mod steps;
pub mod system;
#[cfg(test)]
mod tests;
