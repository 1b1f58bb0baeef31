// Worked examples of networks.
#![tactic(auto)]

pub mod at_most;
#[cfg(test)]
mod tests;
