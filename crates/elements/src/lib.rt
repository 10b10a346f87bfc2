// The elements of a command: where they stand, the judge of one, and the walk over all.
#![tactic(auto)]

pub mod judges;
pub mod marks;
pub mod walks;
