// The commands that move the endpoint that was met and leave its configuration: Open, Close, Abort and Delay Report.
#![tactic(auto)]

pub mod delays;
pub mod leaves;
pub mod opens;
