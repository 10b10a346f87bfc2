// The words of a script. No function asks anything of its caller.
#![tactic(auto)]

pub mod lines;
pub mod names;
pub mod numbers;
pub mod tables;
