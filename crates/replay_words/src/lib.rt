// What an answer means, in words: lines that start with `# `. The words go by what went in and what came out; nothing here judges
// a packet again.
#![tactic(auto)]

pub mod changes;
pub mod notes;
pub mod outcomes;
