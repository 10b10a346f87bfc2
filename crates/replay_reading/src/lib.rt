// A step as it is read: its name, then its words, then what stands at its end, as the table of steps has them. A word is
//   o  a number up to 255        n  a number up to 65,535        d  such a number or a dash
//   s  the name of a state       c  the name of a channel
// and what stands at the end is
//   .  nothing                   *  octets, parted by blanks     p  the same, at most 512
//   k  a dash, or 1 to 64 octets that are not parted             /  packets, as `packets` has them
#![tactic(auto)]

mod ends;
pub mod odd;
mod packets;
pub mod steps;
mod values;

use crate::odd::Odd;
use crate::packets::MOST;
use crate::steps::Step;
use arrayvec::ArrayVec;
use replay_script::lines::{Words, rest, word};
use replay_script::names;
use replay_script::names::STEPS;
use replay_script::tables::said;

// Room for the octets at a step's end, and for the length of each packet.
#[derive(Drop)]
pub struct Room {
    octets: [u8; 4096],
    lengths: ArrayVec<usize, MOST>,
}

impl Room {
    pub fn new() -> Room {
        Room {
            octets: [0; 4096],
            lengths: ArrayVec::new(),
        }
    }
}

// Reads a step; what stands at its end goes into the room. `is_booked` says whether there is a book. A name may have several
// words.
pub fn read<'a>(text: &[u8], is_booked: bool, room: &'a mut Room) -> Result<Step<'a>, Odd> {
    let name = match names::step(text) {
        Some(_) => text,
        None => word(text, 0),
    };
    let [letter, needs, end, forms @ ..] = said(&STEPS, name) else {
        return Err(Odd::NoStep);
    };
    if *needs == b'+' && !is_booked {
        return Err(Odd::NoBook);
    }
    let mut words = Words(rest(text, name.len() + 1));
    let values = values::read(forms, &mut words).ok_or(Odd::Words)?;
    let ending = ends::read(*end, words, room).ok_or(Odd::Words)?;
    Step::new(*letter, values, ending).ok_or(Odd::NoStep)
}
