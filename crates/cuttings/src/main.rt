// Cuts a message of every payload length 0 to 512 at every packet size 48 to 672, packet after packet, and compares each packet
// with a second, simpler way of cutting: one packet after another is taken off what is left of the payload.
#![tactic(auto)]

ghost use Rattle.std.specs.Prelude.{◌≡◌, ◌+◌, ◌*◌, ◌^◌, ◌≤◌, ◌<◌, min, length};

use packets_cut::PacketSize;
use rules::{Header, Piece};
use std::ops::AddAssign;
use std::{array, io};

const HEADER: Header = Header {
    label: 5,
    mtype: 2,
    signal: 12,
};

// Room for any packet with some octets behind it, and what stands in it before: so nothing of an earlier packet can pass for a
// part of the next.
type Area = [u8; 700];

const WIPED: u8 = 255;

// How many packets there are by the second way, and how many packets or counts differ.
#[derive(Clone, Copy, Default)]
struct Tally {
    packets: u64,
    different: u64,
}

impl AddAssign for Tally {
    ghost can_add_assign = { λ a b. (a.packets + b.packets < 2 ^ 64) × (a.different + b.different < 2 ^ 64) };

    ghost add_assign_gives = { λ a b r. (r.packets ≡ a.packets + b.packets) × (r.different ≡ a.different + b.different) };

    fn add_assign(&mut self, other: Tally) {
        self.packets += other.packets;
        self.different += other.different;
    }
}

// How many octets packet number `index` takes off where `left` octets of the payload are left.
fn taken(size: PacketSize, index: usize, left: usize) -> usize
    ensures { (result ≤ left) × (min left 45 ≤ result) }
{
    match index {
        0 if left <= size.octets - 2 => left,
        0 => size.octets - 3,
        _ => left.min(size.octets - 1),
    }
}

// How many packets are taken off a payload of `whole` octets until nothing is left.
fn counted(size: PacketSize, whole: usize) -> usize
    requires { whole ≤ 512 }
    ensures { result ≤ 255 }
{
    let mut left = whole - taken(size, 0, whole);
    let mut count = 1;
    while left != 0 {
        left -= taken(size, count, left);
        count += 1;
    }
    count
}

// Writes the header of packet number `index` of `count`, and answers its length.
fn put_header(index: usize, count: usize, last: bool, expected: &mut Area) -> usize
    requires { count ≤ 255 }
    ensures { result ≤ 3 }
{
    let single = HEADER.label * 16 + HEADER.mtype;
    match (index, last) {
        (0, true) => {
            expected[..2].copy_from_slice(&[single, HEADER.signal]);
            2
        }
        (0, false) => {
            expected[..3].copy_from_slice(&[single + 4, count as u8, HEADER.signal]);
            3
        }
        (_, true) => {
            expected[0] = single + 12;
            1
        }
        (_, false) => {
            expected[0] = single + 8;
            1
        }
    }
}

// Cuts packet number `index`: whether the cutter tells something else than `told`, or leaves its area with other octets than
// `expected`, up to the end.
fn differs(
    size: PacketSize,
    payload: &[u8],
    index: usize,
    told: Piece,
    area: &mut Area,
    expected: &Area,
) -> bool {
    area.fill(WIPED);
    let piece = packets_cut::cut(size.octets, HEADER, payload, index, area);
    piece != told || *area != *expected
}

// One message: the count of its packets, the number behind the last, which is refused, and every packet. What is expected is
// written without `octets::put`, by which the cutter writes, and the number without the cutter's names of refusals, so that a
// fault there would show.
fn message(size: PacketSize, payload: &[u8], area: &mut Area, expected: &mut Area) -> Tally
    requires { length payload.now ≤ 512 }
    ensures { (result.packets ≤ 300) × (result.different ≤ 300) }
{
    let count = counted(size, payload.len());
    expected.fill(WIPED);
    let refused = Piece {
        number: 11,
        length: 0,
    };
    let mut different = u64::from(differs(size, payload, count, refused, area, expected));
    different += u64::from(packets_cut::packets(size.octets, payload.len()) != count);
    let mut rest = payload;
    for index in 0..count {
        let (part, behind) = rest.split_at(taken(size, index, rest.len()));
        expected.fill(WIPED);
        let head = put_header(index, count, behind.is_empty(), expected);
        let length = head + part.len();
        expected[head..length].copy_from_slice(part);
        let cut = Piece { number: 0, length };
        different += u64::from(differs(size, payload, index, cut, area, expected));
        rest = behind;
    }
    Tally {
        packets: count as u64,
        different,
    }
}

// The messages of every length, at one packet size.
fn lengths(size: PacketSize, payload: &[u8; 512], area: &mut Area, expected: &mut Area) -> Tally
    ensures { (result.packets ≤ 300 * 513) × (result.different ≤ 300 * 513) }
{
    let mut tally = Tally::default();
    for length in 0..=512 {
        tally += message(size, &payload[..length], area, expected);
    }
    tally
}

// The same at every packet size.
#[tactic(auto, unfolding(rules::specs::Packets::size_right, rules::specs::Octets::between))]
fn sizes(payload: &[u8; 512], area: &mut Area, expected: &mut Area) -> Tally {
    let mut tally = Tally::default();
    for octets in 48..=672 {
        let size = PacketSize::new(octets).unwrap();
        tally += lengths(size, payload, area, expected);
    }
    tally
}

fn main(rt: HostRuntime) -> io::Result<()> {
    let payload = array::from_fn(|i| ((i * 7 + 3) % 256) as u8);
    let mut area = [WIPED; 700];
    let mut expected = [WIPED; 700];
    let tally = sizes(&payload, &mut area, &mut expected);
    println!(rt; "packets {}", tally.packets)?;
    println!(rt; "different {}", tally.different)
}
