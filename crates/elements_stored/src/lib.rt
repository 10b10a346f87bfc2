// What is shown of a list of elements, and what is stored of one.
#![tactic(auto)]

pub mod config;
pub mod picks;
pub mod shown;
