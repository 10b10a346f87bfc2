// Octets in hexadecimal, two digits each, of either case when they are read; parted by one blank each, or by nothing.
#![tactic(auto)]

ghost use Rattle.std.specs.Prelude.{◌≡◌, ◌≤◌, ◌<◌, unwrap_or, IfSome};
ghost use Rattle.replay_script.specs.Numbers.{or_none};
ghost use Rattle.replay_hexes.specs.Hexes.{digit_of, spelled, octet_at, place_of, is_there, whole_of, hex_count, read_into};

// The value of a digit.
#[tactic(auto, unfolding(crate::specs::Hexes::digit_of))]
fn digit(octet: u8) -> Option<u8>
    ensures value { unwrap_or result 16 ≡ digit_of octet }
    ensures below { IfSome result (λ d. d < 16) }
{
    match octet {
        b'0'..=b'9' => Some(octet - b'0'),
        b'A'..=b'F' => Some(octet - b'A' + 10),
        b'a'..=b'f' => Some(octet - b'a' + 10),
        _ => None,
    }
}

// The digit of a value below 16, in capitals.
#[tactic(auto, unfolding(crate::specs::Hexes::spelled))]
pub fn spell(value: u8) -> u8
    ensures { result ≡ spelled value }
{
    match value % 16 {
        low @ 0..=9 => b'0' + low,
        low => b'A' + (low - 10),
    }
}

// The octet whose two digits stand at a place.
#[tactic(auto, unfolding(crate::specs::Hexes::octet_at, crate::specs::Hexes::octet_of))]
pub fn octet_at(s: &[u8], at: usize) -> Option<u8>
    ensures { unwrap_or result 256 ≡ octet_at at s.now }
{
    let high = digit(*s.get(at)?)?;
    let low = digit(*s.get(at + 1)?)?;
    Some(high * 16 + low)
}

// The place of octet number k.
#[tactic(auto, unfolding(crate::specs::Hexes::place_of))]
fn place(k: usize, parted: bool) -> usize
    requires { k ≤ 8192 }
    ensures { result ≡ place_of parted k }
{
    if parted { k * 3 } else { k * 2 }
}

// Whether octet number k is there, with a blank before it where they are parted.
#[tactic(auto, unfolding(crate::specs::Hexes::is_there, crate::specs::Hexes::octet_at))]
fn is_there(s: &[u8], parted: bool, k: usize) -> bool
    requires { k ≤ 8192 }
    ensures { result ≡ is_there parted s.now k }
{
    let at = place(k, parted);
    octet_at(s, at).is_some() && (!parted || at == 0 || s[at - 1] == b' ')
}

// How many octets so many digits and gaps are, if that comes out even.
#[tactic(auto, unfolding(crate::specs::Hexes::whole_of))]
fn whole(length: usize, parted: bool) -> Option<usize>
    requires { length ≤ 8191 }
    ensures value { or_none result ≡ whole_of parted length }
    ensures below { IfSome result (λ n. n ≤ 8191) }
{
    match length {
        0 => Some(0),
        _ if parted => ((length + 1) % 3 == 0).then_some((length + 1) / 3),
        _ => (length % 2 == 0).then_some(length / 2),
    }
}

// How many octets `s` spells, if it is all octets and no longer than a line.
#[tactic(auto, unfolding(crate::specs::Hexes::hex_count, crate::specs::Hexes::whole_of, crate::specs::Hexes::all_there))]
pub fn count(s: &[u8], parted: bool) -> Option<usize>
    ensures value { or_none result ≡ hex_count parted s.now }
    ensures below { IfSome result (λ n. n ≤ 8191) }
{
    if 8191 < s.len() {
        return None;
    }
    let n = whole(s.len(), parted)?;
    for k in (0..n).rev() {
        if !is_there(s, parted, k) {
            return None;
        }
    }
    Some(n)
}

// Writes the first n octets that `s` spells to the front of `dst`, if they fit; a place that spells none counts as 0. Stored by
// the index, because of what is stored through `iter_mut` a proof knows nothing.
#[tactic(auto, unfolding(crate::specs::Hexes::read_into, crate::specs::Hexes::octets_read, octets::specs::Patch::patch))]
pub fn read(s: &[u8], parted: bool, n: usize, dst: &mut [u8])
    ensures { dst.new ≡ read_into parted s.now n dst.old }
{
    if 8192 < n || dst.len() < n {
        return;
    }
    for k in 0..n {
        dst[k] = octet_at(s, place(k, parted)).unwrap_or(0);
    }
}
