// Why a line is not understood.
use std::fmt;

#[derive(Clone, Copy)]
pub enum Odd {
    Long,
    NoStep,
    NoBook,
    Words,
}

impl fmt::Display for Odd {
    fn fmt<W: fmt::Write>(&self, f: &mut fmt::Formatter<W>) -> fmt::Result {
        f.write_str(match self {
            Odd::Long => "the line is longer than 8191 octets",
            Odd::NoStep => "no step has this name",
            Odd::NoBook => "no book was accepted yet",
            Odd::Words => "the words behind the step's name are not what it takes",
        })
    }
}
