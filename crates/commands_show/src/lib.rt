// The commands that ask and move nothing: Discover, and at the endpoint that was met Get Capabilities, Get All Capabilities, Get
// Configuration and Security Control.
#![tactic(auto)]

pub mod discovers;
pub mod shows;
