// The cutter and the gathering, one after the other as they run: what is cut reads back.
#![tactic(auto)]

ghost use Rattle.std.specs.Prelude.{◌≡◌, ◌≤◌, ◌<◌, length};
ghost use Rattle.rules.specs.Octets.{front};
ghost use Rattle.rules.specs.Packets.{gather};
ghost use Rattle.rules.specs.Saved.{gathering_in, store_gathering};
ghost use Rattle.packets_next.specs.Rooms.{RoomRight};
ghost use Rattle.packets_echo.specs.Echoes.{echoed_of, payload_on};

use packets_cut::PacketSize;
use packets_next::nexts::Next;
use rules::Header;

// A message that is complete: its header, and the length of its payload.
#[derive(Clone, Copy)]
pub struct Echoed {
    pub header: Header,
    pub length: usize,
}

// Gathers a packet in `room`; a message that it completes has its payload at the front of `message`.
fn receive(room: &mut [u8], size: PacketSize, packet: &[u8], message: &mut [u8]) -> Option<Echoed>
    requires room_right { RoomRight room.old }
    requires message_fits { 512 ≤ length message.old }
    ensures echoed { result
        ≡ echoed_of (gather size.octets (gathering_in room.old) packet.now).done }
    ensures room { room.new
        ≡ store_gathering (gather size.octets (gathering_in room.old) packet.now).gathering
        room.old }
    ensures message { message.new
        ≡ payload_on (gather size.octets (gathering_in room.old) packet.now).done message.old }
{
    match packets_gather::gather(room, size.octets, packet) {
        Next::Single(header) => {
            // its header and its signal
            prove!(2 <= packet.len());
            let payload = &packet[2..];
            octets::put(message, 0, payload);
            Some(Echoed {
                header,
                length: payload.len(),
            })
        }
        Next::Complete(header) => Some(Echoed {
            header,
            length: packets_gather::assemble(message, room, packet),
        }),
        Next::Ended | Next::Begun | Next::Grown => None,
    }
}

// Cuts a message into packets and gathers them again, each packet in `area` and the gathering in `room`; whatever was gathered
// there before, the message comes out as it went in.
pub fn echo(
    size: PacketSize,
    header: Header,
    payload: &[u8],
    room: &mut [u8],
    area: &mut [u8],
    message: &mut [u8],
) -> Echoed
    requires label_fits { header.label < 16 }
    requires mtype_fits { header.mtype < 4 }
    requires signal_fits { header.signal < 64 }
    requires payload_fits { length payload.now ≤ 512 }
    requires room_right { RoomRight room.old }
    requires area_fits { 672 ≤ length area.old }
    requires message_fits { 512 ≤ length message.old }
    ensures echoed { result ≡ record { header = header; length = length payload.now } }
    ensures message { message.new ≡ front payload.now message.old }
{
    for index in 0..size.count(payload.len()) {
        let piece = packets_cut::cut(size.octets, header, payload, index, area);
        if let Some(echoed) = receive(room, size, &area[..piece.length], message) {
            return echoed;
        }
    }
    // the last packet completes the message
    unreachable!()
}
