// Why a line has no answer: it is not understood, or the answer could not be written.
use replay_reading::odd::Odd;
use std::io;

#[derive(Drop)]
pub enum Failure {
    Line(Odd),
    Output(io::Error),
}

impl From<Odd> for Failure {
    fn from(why: Odd) -> Failure {
        Failure::Line(why)
    }
}

impl From<io::Error> for Failure {
    fn from(error: io::Error) -> Failure {
        Failure::Output(error)
    }
}
