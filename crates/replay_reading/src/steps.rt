// The steps, each with what it takes.
use crate::ends::Ending;
use crate::values::{MOST, Value};
use replay_answers::records::{Gathering, Record};
use replay_answers::says::{ChannelName, StateName};
use rules::{Header, OurSeid};

#[derive(Clone, Copy)]
pub enum Step<'a> {
    Book(&'a [u8]),
    Rebook(&'a [u8]),
    Size(u16),
    Area(u16),
    Packet(&'a [u8]),
    Burst {
        octets: &'a [u8],
        lengths: &'a [usize],
    },
    Up,
    Down(OurSeid),
    Lost,
    Settings(OurSeid),
    Delay(OurSeid),
    Status(OurSeid),
    States,
    Record(Record<'a>),
    Count(u8),
    NoGathering,
    Gathering(Gathering<'a>),
    Cut(Cut<'a>),
    Explain,
}

// Packet number `index` of a message, in an area of this length.
#[derive(Clone, Copy)]
pub struct Cut<'a> {
    pub size: u16,
    pub header: Header,
    pub area: u16,
    pub index: u16,
    pub payload: &'a [u8],
}

impl<'a> Step<'a> {
    // The step of a letter of the table, with its words and what stands at its end.
    pub fn new(letter: u8, values: [Value; MOST], ending: Ending<'a>) -> Option<Step<'a>> {
        let [a, b, c, d, e, f] = values;
        let Ending { octets, lengths } = ending;
        let seid = OurSeid(a.octet());
        Some(match letter {
            b'b' => Step::Book(octets),
            b'r' => Step::Rebook(octets),
            b's' => Step::Size(a.number()),
            b'a' => Step::Area(a.number()),
            b'p' => Step::Packet(octets),
            b'm' => Step::Burst { octets, lengths },
            b'u' => Step::Up,
            b'd' => Step::Down(seid),
            b'l' => Step::Lost,
            b'q' => Step::Settings(seid),
            b't' => Step::Delay(seid),
            b'j' => Step::Status(seid),
            b'e' => Step::States,
            b'w' => Step::Record(Record {
                seid: a.octet(),
                state: StateName(b.octet()),
                channel: ChannelName(c.octet()),
                far: d.octet(),
                delay: e.tenths(),
                config: octets,
            }),
            b'i' => Step::Count(a.octet()),
            b'n' => Step::NoGathering,
            b'g' => Step::Gathering(Gathering {
                label: a.octet(),
                mtype: b.octet(),
                signal: c.octet(),
                packets: d.octet(),
                parts: e.octet(),
                payload: octets,
            }),
            b'c' => Step::Cut(Cut {
                size: a.number(),
                header: Header {
                    label: b.octet(),
                    mtype: c.octet(),
                    signal: d.octet(),
                },
                area: e.number(),
                index: f.number(),
                payload: octets,
            }),
            b'x' => Step::Explain,
            _ => return None,
        })
    }
}
