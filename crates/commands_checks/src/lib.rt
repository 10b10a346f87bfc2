// The checks that every command on an endpoint begins with: the length of its payload, whether the SEID is known, and the state.
#![tactic(auto)]

pub mod preambles;
pub mod tables;
