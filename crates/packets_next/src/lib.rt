// What a packet leads to, by the packet and the room that a gathering is saved in. Nothing is written.
#![tactic(auto)]

pub mod nexts;

ghost use Rattle.std.specs.Prelude.{◌≡◌, ◌≤◌, length, drop, get_or};
ghost use Rattle.std.proofs.Math.Option.{Option};
ghost use Rattle.rules.specs.Packets.{Gathering, a_single, a_start, label_in, mtype_in, signal_in, read_as};
ghost use Rattle.rules.specs.Saved.{payload_place, payload_length_in, gathering_in};
ghost use Rattle.packets_next.specs.Nexts.{of_gathered, next_further, next_by, next_of};
ghost use Rattle.packets_next.specs.Rooms.{RoomRight};

use crate::nexts::Next;
use rules::Header;
use rules::layout::{LABEL, LENGTH_HIGH, LENGTH_LOW, MARK, MTYPE, PACKETS, PARTS, SIGNAL};

// How many octets are gathered in the room.
pub fn gathered(room: &[u8]) -> usize
    requires { payload_place ≤ length room.now }
    ensures { result ≡ payload_length_in room.now }
{
    usize::from(u16::from_be_bytes([room[LENGTH_HIGH], room[LENGTH_LOW]]))
}

// The header of a message, from octet 0 of its first packet and the octet of its signal.
pub fn header_in(first: u8, signal: u8) -> Header
    ensures { result
        ≡ record { label = label_in first; mtype = mtype_in first; signal = signal_in signal } }
{
    Header {
        label: first / 16,
        mtype: first % 4,
        signal: signal % 64,
    }
}

// What a packet that is a message by itself leads to, whatever is gathered: its header has 2 octets.
#[tactic(auto, using(crate::proofs::Firsts::by_length))]
fn single(packet: &[u8]) -> Next
    ensures { (g : Option Gathering)
        → result ≡ next_by g (read_as a_single (get_or packet.now 0 0) (drop 1 packet.now)) }
{
    match packet {
        [first, signal, payload @ ..] if payload.len() <= 512 => {
            Next::Single(header_in(*first, *signal))
        }
        _ => Next::Ended,
    }
}

// What the first packet of several leads to, whatever is gathered: its header has 3 octets, with the packet count in the middle.
#[tactic(auto, using(crate::proofs::Firsts::by_length), unfolding(rules::specs::Octets::between))]
fn start(packet: &[u8]) -> Next
    ensures { (g : Option Gathering)
        → result ≡ next_by g (read_as a_start (get_or packet.now 0 0) (drop 1 packet.now)) }
{
    match packet {
        [_, count, _, payload @ ..] if 2 <= *count && payload.len() <= 512 => Next::Begun,
        _ => Next::Ended,
    }
}

// Whether a further packet is of the message that is gathered, and its payload fits behind.
fn of_gathered(room: &[u8], packet: &[u8]) -> bool
    requires room_right { RoomRight room.now }
    requires packet_begun { 1 ≤ length packet.now }
    ensures { result ≡ of_gathered room.now packet.now }
{
    room[MARK] != 0
        && packet[0] / 16 == room[LABEL]
        && packet[0] % 4 == room[MTYPE]
        && gathered(room) + (packet.len() - 1) <= 512
}

// What a further packet leads to, a continue or the last.
#[tactic(auto, using(crate::proofs::Furthers::by_tests, std::proofs::lemmas::Bool::Decides::nat_tests))]
fn further(room: &[u8], packet: &[u8], last: bool) -> Next
    requires room_right { RoomRight room.now }
    requires packet_begun { 1 ≤ length packet.now }
    ensures { result ≡ next_further (gathering_in room.now) last (label_in (get_or packet.now 0 0))
        (mtype_in (get_or packet.now 0 0)) (drop 1 packet.now) }
{
    if !of_gathered(room, packet) {
        return Next::Ended;
    }
    let parts = usize::from(room[PARTS]) + 1;
    let count = usize::from(room[PACKETS]);
    if last && parts == count {
        Next::Complete(Header {
            label: room[LABEL],
            mtype: room[MTYPE],
            signal: room[SIGNAL],
        })
    } else if !last && parts < count {
        Next::Grown
    } else {
        Next::Ended
    }
}

// What a packet leads to. Nothing is written.
pub fn next(room: &[u8], size: usize, packet: &[u8]) -> Next
    requires { RoomRight room.now }
    ensures { result ≡ next_of size (gathering_in room.now) packet.now }
{
    if packet.is_empty() || size < packet.len() {
        return Next::Ended;
    }
    match packet[0] / 4 % 4 {
        0 => single(packet),
        1 => start(packet),
        2 => further(room, packet, false),
        _ => further(room, packet, true),
    }
}
