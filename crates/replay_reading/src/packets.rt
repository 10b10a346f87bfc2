// Packets, as a burst has them: the word `/` begins a packet, and the words behind it are its octets.
use crate::ends::Ending;
use arrayvec::ArrayVec;
use replay_hexes::octet_at;
use replay_script::lines::Words;

// The most packets that are understood: more than a burst may have, so that its refusal can be seen.
pub const MOST: usize = 40;

// The octet that a word is.
fn octet(word: &[u8]) -> Option<u8> {
    if word.len() == 2 {
        octet_at(word, 0)
    } else {
        None
    }
}

// Reads packets; their octets go into one area, one packet behind the other.
pub fn read<'a>(
    words: Words<'_>,
    octets: &'a mut [u8],
    lengths: &'a mut ArrayVec<usize, MOST>,
) -> Option<Ending<'a>> {
    let mut total = 0usize;
    for word in words {
        if matches!(word, b"/") {
            lengths.try_push(0).ok()?;
        } else {
            *octets.get_mut(total)? = octet(word)?;
            total = total.saturating_add(1);
            let length = lengths.as_mut_slice().last_mut()?;
            *length = length.saturating_add(1);
        }
    }
    Some(Ending {
        octets: octets.get(..total)?,
        lengths: lengths.as_slice(),
    })
}
