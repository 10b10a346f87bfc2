// What is saved, as a script shows and writes it (docs/SAVED.md draws the layout).
ghost use Rattle.std.specs.Prelude.{◌≡◌};
ghost use Rattle.std.specs.Slice.Iter.{chunks_exact_size};

use crate::says::{ChannelName, Joined, StateName};
use rules::layout::{
    COUNT, COUNT_PLACE, HEAD, LINK_MARK, LONGEST, PAYLOAD, RECORD, RECORDS, STATE,
};
use std::fmt;
use std::slice::ChunksExact;

// The area in which the bridge saves a connection.
pub type Saved = [u8; LONGEST];

// A saved record. Its octets for a state and a channel have a name each.
#[derive(Clone, Copy)]
pub struct Record<'a> {
    pub seid: u8,
    pub state: StateName,
    pub channel: ChannelName,
    pub far: u8,
    pub delay: Option<u16>,
    pub config: &'a [u8],
}

impl<'a> Record<'a> {
    // The record in the octets of one, if they are so many.
    pub fn read(slot: &'a [u8]) -> Option<Record<'a>> {
        let (head, room) = slot.split_at_checked(HEAD)?;
        let [seid, state, channel, far, mark, high, low, length, ..] = head else {
            return None;
        };
        Some(Record {
            seid: *seid,
            state: StateName(*state),
            channel: ChannelName(*channel),
            far: *far,
            delay: (*mark != 0).then_some(u16::from_be_bytes([*high, *low])),
            config: room.get(..usize::from(*length)).unwrap_or(&[]),
        })
    }

    // Overwrites the record of this SEID from its state on, if one of the first `records` has it.
    pub fn write(&self, saved: &mut Saved, records: usize) -> Option<()> {
        let [high, low] = self.delay.unwrap_or(0).to_be_bytes();
        let [.., length] = self.config.len().to_be_bytes();
        let head = [
            self.state.0,
            self.channel.0,
            self.far,
            u8::from(self.delay.is_some()),
            high,
            low,
            length,
        ];
        for slot in saved[RECORDS..].chunks_exact_mut(RECORD).take(records) {
            if slot.first() == Some(&self.seid) {
                lay(slot, STATE, &head);
                lay(slot, HEAD, self.config);
                return Some(());
            }
        }
        None
    }
}

// The octets of all records, in one piece for each.
pub fn slots(saved: &Saved) -> ChunksExact<'_, u8>
    ensures { chunks_exact_size result ≡ RECORD }
{
    saved[RECORDS..].chunks_exact(RECORD)
}

// SEID STATE CHANNEL FAR DELAY CONFIG
impl fmt::Display for Record<'_> {
    fn fmt<W: fmt::Write>(&self, f: &mut fmt::Formatter<W>) -> fmt::Result {
        write!(
            f,
            "{} {} {} {} ",
            self.seid, self.state, self.channel, self.far
        )?;
        match self.delay {
            Some(tenths) => write!(f, "{tenths} ")?,
            None => write!(f, "- ")?,
        }
        if self.config.is_empty() {
            return write!(f, "-");
        }
        write!(f, "{}", Joined(self.config))
    }
}

// Lays octets into an area at a place, if they fit.
fn lay(area: &mut [u8], at: usize, octets: &[u8]) {
    let Some(end) = at.checked_add(octets.len()) else {
        return;
    };
    if let Some(part) = area.get_mut(at..end) {
        part.copy_from_slice(octets);
    }
}

// What is being gathered: a message of several packets of which not all have come.
#[derive(Clone, Copy)]
pub struct Gathering<'a> {
    pub label: u8,
    pub mtype: u8,
    pub signal: u8,
    pub packets: u8,
    pub parts: u8,
    pub payload: &'a [u8],
}

impl<'a> Gathering<'a> {
    // What is being gathered, if anything is.
    pub fn read(saved: &'a Saved) -> Option<Gathering<'a>> {
        let link = &saved[COUNT..RECORDS];
        let [
            mark,
            label,
            mtype,
            signal,
            packets,
            parts,
            high,
            low,
            room @ ..,
        ] = link
        else {
            return None;
        };
        if *mark == 0 {
            return None;
        }
        let length = u16::from_be_bytes([*high, *low]);
        Some(Gathering {
            label: *label,
            mtype: *mtype,
            signal: *signal,
            packets: *packets,
            parts: *parts,
            payload: room.get(..usize::from(length)).unwrap_or(&[]),
        })
    }

    // Overwrites what is being gathered.
    pub fn write(&self, saved: &mut Saved) {
        let [.., high, low] = self.payload.len().to_be_bytes();
        lay(
            saved,
            COUNT,
            &[
                1,
                self.label,
                self.mtype,
                self.signal,
                self.packets,
                self.parts,
                high,
                low,
            ],
        );
        lay(saved, COUNT + PAYLOAD, self.payload);
    }
}

impl fmt::Display for Gathering<'_> {
    fn fmt<W: fmt::Write>(&self, f: &mut fmt::Formatter<W>) -> fmt::Result {
        write!(
            f,
            "part {} of {} of the message with label {}; ",
            self.parts, self.packets, self.label
        )?;
        write!(f, "{} octets of payload so far", self.payload.len())
    }
}

// Overwrites the mark of a gathering: nothing is being gathered.
pub fn end_gathering(saved: &mut Saved) {
    saved[LINK_MARK] = 0;
}

// Overwrites the number of records.
pub fn count(saved: &mut Saved, records: u8) {
    saved[COUNT_PLACE] = records;
}
