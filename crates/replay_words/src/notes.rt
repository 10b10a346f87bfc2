// What the host's numbers mean, and what the answers that are a number and little more mean.
use replay_answers::session::Session;
use std::{fmt, io};

// What was asked for where the number is 10, which says different things of different calls.
#[derive(Clone, Copy)]
pub enum Asked {
    AwaitedChannel,
    ChannelOfSeid,
    EndpointOfSeid,
}

// What a number of the host means that is not 0.
fn reason(number: u8, asked: Asked) -> &'static str {
    match number {
        1 =>
            "the book is shorter than 6 octets, an entry or its list runs past the end, or octets are left over",
        2 => "the book does not begin with 48 4C 42",
        3 => "the book's version is not 1",
        4 => "the book's count of endpoints is not 1 to 16",
        5 => "a SEID of the book is not 1 to 62, or not above the one before it",
        6 => {
            "a kind octet of the book breaks its rule: media type 0 to 2 in bits 7-4, bit 3 for a sink, bits 2-0 zero"
        }
        7 =>
            "a capability list of the book is longer than 64 octets or breaks the rules of its elements",
        8 => "the packet size is not 48 to 672",
        9 => {
            "the reply area is below 64 octets, or below 1024 for a burst, or the packet area is shorter than the packet \
            to be written"
        }
        10 => match asked {
            Asked::AwaitedChannel => "no endpoint awaits its channel",
            Asked::ChannelOfSeid => "the book has no endpoint of this SEID, or it has no channel",
            Asked::EndpointOfSeid => "the book has no endpoint of this SEID",
        },
        11 => {
            "the packet number is too high, the payload above 512 octets, the label above 15, the type above 3 or the \
            signal above 63"
        }
        12 => "the saved connection is not legal for this book",
        13 => "a burst has at most 16 packets",
        _ => "",
    }
}

// What is said where the number is 0.
#[derive(Clone, Copy)]
pub enum Done {
    Fresh,
    Kept,
    Configured,
    Offered,
    Reported { tenths: u16 },
    Unreported,
    Stands,
    PacketOf { index: usize, packets: usize },
    OneByOne { packets: usize },
}

impl fmt::Display for Done {
    fn fmt<W: fmt::Write>(&self, f: &mut fmt::Formatter<W>) -> fmt::Result {
        match self {
            Done::Fresh => write!(
                f,
                "the book is right; a fresh connection begins, every endpoint idle"
            ),
            Done::Kept => write!(
                f,
                "the book is right; it lies over the connection as it was saved"
            ),
            Done::Configured => write!(f, "the endpoint's configuration"),
            Done::Offered => write!(
                f,
                "what the endpoint offers in the book; it has no configuration"
            ),
            Done::Reported { tenths } => {
                let whole = *tenths / 10;
                let tenth = *tenths % 10;
                write!(f, "the far end reported a delay of {whole}.{tenth} ms")
            }
            Done::Unreported => write!(f, "the far end reported no delay for this endpoint"),
            Done::Stands => write!(
                f,
                "how the endpoint stands: its state, its channel and the far end's SEID, 0 where there is none"
            ),
            Done::PacketOf { index, packets } => {
                write!(f, "packet number {index}, counted from 0, of {packets}")
            }
            Done::OneByOne { packets } => write!(
                f,
                "the packets of the burst, one by one: {packets}"
            ),
        }
    }
}

// Why a call was refused, if that is asked for.
pub fn refused(rt: &impl Print, session: &Session, number: u8, asked: Asked) -> io::Result<()> {
    if session.explains {
        println!(rt; "# {}", reason(number, asked))?;
    }
    Ok(())
}

// What a call that may be refused came to, if that is asked for.
pub fn note(rt: &impl Print, session: &Session, number: u8, done: Done) -> io::Result<()> {
    if number != 0 {
        return refused(rt, session, number, Asked::EndpointOfSeid);
    }
    if session.explains {
        println!(rt; "# {done}")?;
    }
    Ok(())
}
