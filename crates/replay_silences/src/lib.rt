// Why a packet is not answered, by the packet and by what was being gathered before and is being gathered after it.
#![tactic(auto)]

use replay_answers::records::Gathering;
use std::{fmt, io};

// Label, message type, packet type: the parts of a packet's first octet.
fn label(octet: u8) -> u8 {
    octet / 16
}

fn message_type(octet: u8) -> u8 {
    octet % 4
}

pub fn packet_type(octet: u8) -> u8 {
    octet / 4 % 4
}

// Why a packet is not answered.
#[derive(Clone, Copy)]
enum Silence {
    AbortLength,
    AbortSeid,
    NoCommand,
    Empty,
    AbovePacketSize,
    SingleShort,
    StartShort,
    StartAnnounces,
    PayloadLong,
    NoneGathered,
    OtherLabel,
    OtherType,
    EndOwed,
    MoreOwed,
}

impl Silence {
    // Whether the message was whole: an Abort, or no command.
    fn is_whole(self) -> bool {
        matches!(
            self,
            Silence::AbortLength | Silence::AbortSeid | Silence::NoCommand
        )
    }
}

impl fmt::Display for Silence {
    fn fmt<W: fmt::Write>(&self, f: &mut fmt::Formatter<W>) -> fmt::Result {
        f.write_str(match self {
            Silence::AbortLength => "an Abort whose payload is not 1 octet gets no answer",
            Silence::AbortSeid => "an Abort for a SEID that is not in the book gets no answer",
            Silence::NoCommand => "a message that is no command gets no answer",
            Silence::Empty => "an empty packet gets no answer",
            Silence::AbovePacketSize => "the packet is longer than the packet size",
            Silence::SingleShort => "a single packet has 2 octets or more",
            Silence::StartShort => "a start packet has 3 octets or more",
            Silence::StartAnnounces => "a start packet announces 2 packets or more",
            Silence::PayloadLong => "the payload would be above 512 octets",
            Silence::NoneGathered => "a continue or end packet, and no message is being gathered",
            Silence::OtherLabel =>
                "the packet has another label than the message that is being gathered",
            Silence::OtherType =>
                "the packet has another message type than the message that is being gathered",
            Silence::EndOwed => "a continue packet, and the last one is owed, an end",
            Silence::MoreOwed => "an end packet, and more than one is still owed",
        })
    }
}

// The reason of a message that is whole.
fn whole(mtype: u8, length: usize) -> Silence {
    match (mtype, length) {
        (0, 1) => Silence::AbortSeid,
        (0, _) => Silence::AbortLength,
        _ => Silence::NoCommand,
    }
}

// The reason of a packet that is a message, by its first octet and what is behind it.
fn single(first: u8, behind: &[u8]) -> Silence {
    match behind {
        [] => Silence::SingleShort,
        [_signal, payload @ ..] if payload.len() <= 512 => whole(
            message_type(first),
            payload.len(),
        ),
        _ => Silence::PayloadLong,
    }
}

// The reason of a packet that begins a message.
fn start(behind: &[u8]) -> Silence {
    match behind {
        [] | [_] => Silence::StartShort,
        [packets, ..] if *packets < 2 => Silence::StartAnnounces,
        _ => Silence::PayloadLong,
    }
}

// The reason of a packet that goes on with a message, or ends it.
fn further(first: u8, payload: &[u8], gathering: Option<Gathering<'_>>) -> Silence {
    let Some(gathering) = gathering else {
        return Silence::NoneGathered;
    };
    if label(first) != gathering.label {
        return Silence::OtherLabel;
    }
    if message_type(first) != gathering.mtype {
        return Silence::OtherType;
    }
    let is_last = gathering.packets <= gathering.parts.saturating_add(1);
    if packet_type(first) == 2 {
        return if is_last {
            Silence::EndOwed
        } else {
            Silence::PayloadLong
        };
    }
    if gathering.parts.saturating_add(1) < gathering.packets {
        return Silence::MoreOwed;
    }
    let length = gathering.payload.len().saturating_add(payload.len());
    if 511 < payload.len() || 512 < length {
        return Silence::PayloadLong;
    }
    whole(message_type(first), length)
}

// Why a packet is not answered that ended the gathering, or found none.
fn why(size: usize, packet: &[u8], gathering: Option<Gathering<'_>>) -> Silence {
    let [first, behind @ ..] = packet else {
        return Silence::Empty;
    };
    if size < packet.len() {
        return Silence::AbovePacketSize;
    }
    match packet_type(*first) {
        0 => single(*first, behind),
        1 => start(behind),
        _ => further(*first, behind, gathering),
    }
}

// Says what is being gathered.
pub fn say_gathering(rt: &impl Print, gathering: Option<Gathering<'_>>) -> io::Result<()> {
    match gathering {
        Some(gathering) => println!(rt; "# {gathering}"),
        None => println!(rt; "# no message is being gathered"),
    }
}

fn dropped(rt: &impl Print, before: Option<Gathering<'_>>) -> io::Result<()> {
    if before.is_some() {
        println!(rt; "# the message that was being gathered is dropped")?;
    }
    Ok(())
}

// A packet that was not answered.
pub fn silent(
    rt: &impl Print,
    size: usize,
    packet: &[u8],
    before: Option<Gathering<'_>>,
    after: Option<Gathering<'_>>,
) -> io::Result<()> {
    let kind = packet.first().map(|first| packet_type(*first));
    if after.is_some() {
        if kind == Some(1) {
            dropped(rt, before)?;
        }
        return say_gathering(rt, after);
    }
    let why = why(size, packet, before);
    println!(rt; "# {why}")?;
    // the last packet of the message that was being gathered has ended it
    if kind == Some(3) && why.is_whole() {
        return Ok(());
    }
    dropped(rt, before)
}
