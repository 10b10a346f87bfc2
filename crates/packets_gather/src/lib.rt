// One gathering step for every packet, over the room that the gathering is saved in. The octets of a part go straight into that
// room, once; a message that is whole in one packet is not copied at all. The room stays a slice, though each function here asks
// how long it is: it is lent to be written, and a ghost field beside a `&mut` has no proof.
#![tactic(auto)]

ghost use Rattle.std.specs.Prelude.{◌≡◌, ◌++◌, ◌+◌, ◌≤◌, ◌<◌, length, drop, get_or};
ghost use Rattle.std.proofs.Math.Option.{some};
ghost use Rattle.rules.specs.Octets.{front};
ghost use Rattle.rules.specs.Packets.{gather as gatherOf};
ghost use Rattle.rules.specs.Saved.{gathering_room, mark_place, parts_place, payload_length_in, gathering_at, gathering_in};
ghost use Rattle.rules.specs.Saved.{store_gathering};
ghost use Rattle.packets_next.specs.Nexts.{next_of};
ghost use Rattle.packets_next.specs.Rooms.{RoomRight, begun, grown};
ghost use Rattle.packets_gather.specs.Parts.{with_part};

use packets_next::nexts::Next;
use packets_next::{gathered, header_in, next};
use rules::layout::{LABEL, LENGTH_HIGH, LENGTH_LOW, MARK, MTYPE, PACKETS, PARTS, PAYLOAD, SIGNAL};

// Writes a part behind what is gathered, and how many parts and octets there are then.
fn add_part(room: &mut [u8], parts: u8, before: usize, part: &[u8])
    requires { (length room.old ≡ gathering_room) × (before + length part.now ≤ 512) }
    ensures { room.new ≡ with_part parts before part.now room.old }
{
    room[PARTS] = parts;
    [room[LENGTH_HIGH], room[LENGTH_LOW]] = ((before + part.len()) as u16).to_be_bytes();
    octets::put(room, PAYLOAD + before, part);
}

// A gathering begins with the first of its packets.
fn begin(room: &mut [u8], packet: &[u8])
    requires room_whole { length room.old ≡ gathering_room }
    requires packet_fits { (3 ≤ length packet.now) × (length (drop 3 packet.now) ≤ 512) }
    ensures { room.new ≡ store_gathering (some (begun packet.now)) room.old }
{
    let header = header_in(packet[0], packet[2]);
    room[MARK] = 1;
    room[LABEL] = header.label;
    room[MTYPE] = header.mtype;
    room[SIGNAL] = header.signal;
    room[PACKETS] = packet[1];
    add_part(room, 1, 0, &packet[3..]);
}

// A gathering goes on with one more packet.
fn grow(room: &mut [u8], packet: &[u8])
    requires room_gathers { (length room.old ≡ gathering_room) × (get_or room.old mark_place 0 ≡ 1)
        × (get_or room.old parts_place 0 < 255) }
    requires packet_begun { 1 ≤ length packet.now }
    requires payload_fits { payload_length_in room.old + length (drop 1 packet.now) ≤ 512 }
    ensures { room.new
        ≡ store_gathering (some (grown (gathering_at room.old) packet.now)) room.old }
{
    let parts = room[PARTS] + 1;
    let before = gathered(room);
    add_part(room, parts, before, &packet[1..]);
}

// Takes a packet: the room holds the gathering from then on, and the answer says what the packet led to.
pub fn gather(room: &mut [u8], size: usize, packet: &[u8]) -> Next
    requires { RoomRight room.old }
    ensures next { result ≡ next_of size (gathering_in room.old) packet.now }
    ensures room { room.new
        ≡ store_gathering (gatherOf size (gathering_in room.old) packet.now).gathering
        room.old }
{
    let then = next(room, size, packet);
    match then {
        Next::Begun => begin(room, packet),
        Next::Grown => grow(room, packet),
        // without the mark no other octet of the room counts
        _ => room[MARK] = 0,
    }
    then
}

// Puts together the message of which `packet` is the last part: what the room holds of it, and then the packet's part.
pub fn assemble(message: &mut [u8], room: &[u8], packet: &[u8]) -> usize
    requires room_whole { length room.now ≡ gathering_room }
    requires packet_begun { 1 ≤ length packet.now }
    requires gathered_fits { payload_length_in room.now ≤ 512 }
    requires message_fits { length (gathering_at room.now).message.payload + length (drop 1 packet.now) ≤ length message.old }
    ensures written { message.new
        ≡ front ((gathering_at room.now).message.payload ++ drop 1 packet.now) message.old }
    ensures size { result ≡ length ((gathering_at room.now).message.payload ++ drop 1 packet.now) }
{
    let before = gathered(room);
    let part = &packet[1..];
    octets::put(message, 0, octets::part(room, PAYLOAD, before));
    octets::put(message, before, part);
    before + part.len()
}
