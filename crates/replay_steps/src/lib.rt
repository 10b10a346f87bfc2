// The steps that change what is saved by the bridge: what each does, and what is answered.
#![tactic(auto)]

pub mod arrivals;
pub mod books;
pub mod events;
