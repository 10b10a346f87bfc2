// A packet taken on a legal connection: it is gathered, and a message that it completes is answered.
#![tactic(auto)]

ghost use Rattle.std.specs.Prelude.{◌≡◌, ◌≤◌, length, take};
ghost use Rattle.rules.specs.Saved.{records_place, link_of, records_of, gathering_in};
ghost use Rattle.rules.specs.Host.{nothing_said, Answered};
ghost use Rattle.packets_next.specs.Nexts.{next_of};
ghost use Rattle.saved.specs.Serves.{Serves};
ghost use Rattle.packets_next.specs.Rooms.{RoomRight};
ghost use Rattle.bridge_packet.specs.Taken.{MayTake, Joins, spoken, joined_payload, gathered_area, served, taken_on};

use book::places::RightBook;
use commands_reply::Said;
use packets_next::nexts::Next;
use rules::layout::{COUNT, RECORDS};
use rules::{Header, Told};
use saved::parts::link_of;

// A refusal, or silence, whose number is 0.
#[tactic(auto, unfolding(rules::specs::Host::nothing_said))]
pub fn nothing(number: u8) -> Told
    ensures { result ≡ nothing_said number }
{
    Told {
        number,
        label: 0,
        mtype: 0,
        signal: 0,
        length: 0,
    }
}

// What is said, with the label and the signal of the message that it answers.
#[tactic(auto, unfolding(crate::specs::Taken::spoken))]
fn tell(header: Header, said: Said) -> Told
    ensures { result ≡ spoken header said }
{
    let (mtype, length) = match said {
        Said::Silence => return nothing(0),
        Said::GeneralReject => (1, 0),
        Said::Accept { length } => (2, length),
        Said::Reject { length } => (3, length),
    };
    Told {
        number: 0,
        label: header.label,
        mtype,
        signal: header.signal,
        length,
    }
}

// Gathers a packet in the link part of the saved area.
fn gathered(saved: &mut [u8], size: usize, packet: &[u8]) -> Next
    requires { RoomRight (link_of saved.old) }
    ensures next { result ≡ next_of size (gathering_in (link_of saved.old)) packet.now }
    ensures saved { saved.new ≡ gathered_area size saved.old packet.now }
{
    packets_gather::gather(&mut saved[COUNT..RECORDS], size, packet)
}

// Answers a message over the records.
fn serve(
    header: Header,
    book: RightBook<'_>,
    saved: &mut [u8],
    payload: &[u8],
    reply: &mut [u8],
) -> Told
    requires { (records_place ≤ length saved.old) × Serves book.octets.now (records_of saved.old) payload.now reply.old }
    ensures { ◌≡◌ {A = Answered} (record { told = result; saved = saved.new; reply = reply.new })
        (served book.entry.octets.now (record { header = header; payload = payload.now })
        saved.old reply.old) }
{
    let said = commands::answer(header, book, &mut saved[RECORDS..], payload, reply);
    tell(header, said)
}

// Answers a message whose last part is in the packet and whose other parts are gathered.
fn serve_joined(
    header: Header,
    book: RightBook<'_>,
    saved: &mut [u8],
    packet: &[u8],
    reply: &mut [u8],
) -> Told
    requires { Joins book.octets.now saved.old packet.now reply.old }
    ensures { ◌≡◌ {A = Answered} (record { told = result; saved = saved.new; reply = reply.new })
        (served book.entry.octets.now
        (record { header = header; payload = joined_payload saved.old packet.now })
        saved.old reply.old) }
{
    // an array and its front: a vector of fixed room would be taken of the kit besides std
    let mut message = [0; 512];
    let length = packets_gather::assemble(&mut message, link_of(saved), packet);
    serve(header, book, saved, &message[..length], reply)
}

// Takes a packet.
pub fn take(
    book: RightBook<'_>,
    size: usize,
    saved: &mut [u8],
    packet: &[u8],
    reply: &mut [u8],
) -> Told
    requires { MayTake book.octets.now saved.old reply.old }
    ensures { ◌≡◌ {A = Answered} (record { told = result; saved = saved.new; reply = reply.new })
        (taken_on book.entry.octets.now size saved.old packet.now reply.old) }
{
    match gathered(saved, size, packet) {
        Next::Single(header) => serve(header, book, saved, &packet[2..], reply),
        Next::Complete(header) => serve_joined(header, book, saved, packet, reply),
        Next::Ended | Next::Begun | Next::Grown => nothing(0),
    }
}
