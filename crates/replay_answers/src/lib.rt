// What the program keeps between lines, and how its answers are written.
#![tactic(auto)]

pub mod records;
pub mod says;
pub mod session;
