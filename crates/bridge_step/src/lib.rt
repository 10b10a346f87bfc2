// Every call of the bridge by one function: what a host does is a row of its steps. It adds nothing to the calls, and its
// contract is the step of the definitions' sequences, so that what is proved of sequences holds of every host.
#![tactic(auto)]

ghost use Rattle.std.specs.Prelude.{◌≡◌};
ghost use Rattle.bridge_step.specs.Steps.{Steps, Copied, copied_of};

use rules::refusals::number;
use rules::{Burst, Event, Header, Heard, OurSeid, Piece, Standing, Told};

// A call with the numbers that it takes. The octets that it reads, a packet, the packets of a burst or a payload, the lengths of
// a burst's packets, and the area that it lends stand beside it.
#[derive(Clone, Copy)]
pub enum Call {
    Check,
    Fresh,
    Packet {
        size: usize,
    },
    Burst {
        size: usize,
    },
    Event(Event),
    Settings(OurSeid),
    Delay(OurSeid),
    Status(OurSeid),
    Packets {
        size: usize,
        length: usize,
    },
    Cut {
        size: usize,
        header: Header,
        index: usize,
    },
}

// What a call answers. Of a call that gives a Result the number is told, as an answer of the definitions' sequences (`Sessions`)
// has it. Of the part that `settings` shows the length is told; its octets stand at the front of a room of their own.
#[derive(Drop)]
pub enum Answer {
    Number(u8),
    Told(Told),
    Burst(Burst),
    Shown { number: u8, length: usize },
    Heard(Heard),
    Stands(Standing),
    Counted(usize),
    CutOff(Piece),
}

// Copies the part that `settings` shows to the front of `room`, and tells its length.
fn copy_settings<'a>(book: &'a [u8], saved: &'a [u8], seid: OurSeid, room: &mut [u8; 64]) -> usize
    ensures { ◌≡◌ {A = Copied} (record { length = result; room = room.new })
        (copied_of book.now saved.now seid room.old) }
{
    let part = bridge::settings(book, saved, seid);
    octets::put(room, 0, part);
    part.len()
}

// Makes the call: `input` is the packet, the packets or the payload, `area` the reply area or the area for a packet, `room` is
// for settings.
pub fn step(
    book: &[u8],
    saved: &mut [u8],
    call: Call,
    input: &[u8],
    lengths: &[usize],
    area: &mut [u8],
    room: &mut [u8; 64],
) -> Answer
    ensures { Steps book.now saved.old call input.now lengths.now
        area.old room.old result saved.new area.new room.new }
{
    match call {
        Call::Check => Answer::Number(number(bridge::check(book))),
        Call::Fresh => Answer::Number(number(bridge::fresh(book, saved))),
        Call::Packet { size } => Answer::Told(bridge::packet(book, size, saved, input, area)),
        Call::Burst { size } => Answer::Burst(bridge::burst(
            book, size, saved, input, lengths, area,
        )),
        Call::Event(event) => Answer::Number(number(bridge::event(book, saved, event))),
        Call::Settings(seid) => Answer::Shown {
            number: number(bridge::settings_told(book, saved, seid)),
            length: copy_settings(book, saved, seid, room),
        },
        Call::Delay(seid) => Answer::Heard(bridge::delay(book, saved, seid)),
        Call::Status(seid) => Answer::Stands(bridge::status(book, saved, seid)),
        Call::Packets { size, length } => Answer::Counted(bridge::packets(size, length)),
        Call::Cut {
            size,
            header,
            index,
        } => Answer::CutOff(bridge::cut(size, header, input, index, area)),
    }
}
