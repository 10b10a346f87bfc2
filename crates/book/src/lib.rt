// The endpoint book: how many entries it has, and where it has a SEID.
#![tactic(auto)]

pub mod places;
