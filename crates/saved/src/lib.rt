// The saved connection: the parts of its area; one endpoint's record, its head loaded by value and stored back, its
// configuration where it stands.
#![tactic(auto)]

pub mod parts;
pub mod records;
