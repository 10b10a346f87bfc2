// The room of a gathering.
#![tactic(auto)]

ghost use Rattle.std.specs.Prelude.{◌≡◌, length};
ghost use Rattle.rules.specs.Saved.{gathering_room};
ghost use Rattle.saved_gathering.specs.Room.{head_right, room_legal};

use rules::layout::{LABEL, LENGTH_HIGH, LENGTH_LOW, MARK, MTYPE, PACKETS, PARTS, SIGNAL};

// Whether the octets in front of the payload keep to their limits.
#[tactic(auto, unfolding(crate::specs::Room::head_right))]
fn head_right(room: &[u8]) -> bool
    requires { length room.now ≡ gathering_room }
    ensures { result ≡ head_right room.now }
{
    2 <= room[PACKETS]
        && 1 <= room[PARTS]
        && room[PARTS] < room[PACKETS]
        && room[LABEL] < 16
        && room[MTYPE] < 4
        && room[SIGNAL] < 64
}

// Whether the room holds no gathering, or one within its limits.
pub fn room_legal(room: &[u8]) -> bool
    requires { length room.now ≡ gathering_room }
    ensures { result ≡ room_legal room.now }
{
    match room[MARK] {
        0 => true,
        1 => u16::from_be_bytes([room[LENGTH_HIGH], room[LENGTH_LOW]]) <= 512 && head_right(room),
        _ => false,
    }
}
