// Facts on lists over any type, and where a number stands in lists laid end to end.
#![tactic(auto)]

pub mod blocks;
