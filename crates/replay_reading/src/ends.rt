// What stands at a step's end, by its form.
use crate::{Room, packets};
use replay_hexes::count;
use replay_script::lines::Words;

// Octets, and of how many packets with which lengths they are.
#[derive(Clone, Copy)]
pub struct Ending<'a> {
    pub octets: &'a [u8],
    pub lengths: &'a [usize],
}

// How many octets a text is, if it is at most so many, parted by blanks.
fn parted(text: &[u8], most: usize) -> Option<usize> {
    count(text, true).filter(|n| *n <= most)
}

// How many octets a text is: none where it is a dash, else 1 to 64 that are not parted.
fn config(text: &[u8]) -> Option<usize> {
    if matches!(text, b"-") {
        return Some(0);
    }
    count(text, false).filter(|n| matches!(n, 1..=64))
}

// Reads into the room what is left behind the words of a step, if it is of the form.
pub fn read<'a>(form: u8, left: Words<'_>, room: &'a mut Room) -> Option<Ending<'a>> {
    let Room { octets, lengths } = room;
    if form == b'/' {
        return packets::read(left, octets, lengths);
    }
    let text = left.0;
    let n = match form {
        b'*' => parted(text, 4096)?,
        b'p' => parted(text, 512)?,
        b'k' => config(text)?,
        _ if text.is_empty() => 0,
        _ => return None,
    };
    replay_hexes::read(text, form != b'k', n, octets);
    Some(Ending {
        octets: octets.get(..n)?,
        lengths: &[],
    })
}
