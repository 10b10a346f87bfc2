// The commands that write a configuration: Set Configuration and Reconfigure. The elements are checked before an octet is
// written, so a command that is rejected leaves every octet of the records.
#![tactic(auto)]

mod keeps;
mod offers;
pub mod renewals;
pub mod settings;
