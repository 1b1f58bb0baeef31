// The worked examples: a table of what is asked and what must come out. It stands in specs/Examples.antt, over the
// definitions that the contracts of networks, sheets and the judge cite, and is proved there as a whole. The code has the same
// table, and a test asks the code each of its examples.
#![tactic(auto)]

pub mod all;
mod bytes;
pub mod example;
mod states;
mod steps;
#[cfg(test)]
mod tests;
mod verdicts;

ghost use Rattle.worked.specs.Examples.{Examples};

/// Every worked example holds. There is nothing to compute.
pub fn examples_hold()
    ensures { Examples }
{}
