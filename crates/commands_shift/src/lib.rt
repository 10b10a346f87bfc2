// Start and Suspend: each listed SEID in turn, and a stop at the first that fails; earlier ones stay shifted.
#![tactic(auto)]

ghost use Rattle.std.specs.Prelude.{◌≡◌, ◌+◌, ◌*◌, ◌≤◌, length};
ghost use Rattle.rules.specs.Endpoints.{in_state};
ghost use Rattle.rules.specs.Saved.{record_room, head_in, head_octets, record_at};
ghost use Rattle.rules.specs.Commands.{obey, shift as shift_by};
ghost use Rattle.rules.specs.declared.Signal.TheVariants.{Start, Suspend};
ghost use Rattle.octets.specs.Patch.{patch};
ghost use Rattle.saved.specs.Records.{config_size_at};
ghost use Rattle.saved.specs.Serves.{Serves};
ghost use Rattle.commands_reply.specs.Obeys.{Obeys};

use book::places::RightBook;
use commands_checks::preambles::meets;
use commands_checks::tables::length_right;
use commands_reply::{Code, Said};
use rules::{OurSeid, Signal, State};
use saved::records::{get, set_head};
use saved_moves::in_state;

// Endpoint `index` in the state `to`.
fn shift_one(records: &mut [u8], index: usize, to: State)
    requires { (index + 1) * record_room ≤ length records.old }
    ensures { records.new
        ≡ patch (index * record_room)
        (head_octets (in_state to (head_in (record_at index records.old))) (config_size_at index records.old))
        records.old }
{
    let h = get(records, index);
    set_head(records, index, in_state(h, to));
}

// The SEIDs of the payload in turn: what Start and Suspend share, which differ in the state.
fn shift(
    signal: Signal,
    to: State,
    book: RightBook<'_>,
    records: &mut [u8],
    payload: &[u8],
    reply: &mut [u8],
) -> Said
    requires { Serves book.octets.now records.old payload.now reply.old }
    ensures { Obeys (shift_by signal to) book.entry.octets.now records.old payload.now
        reply.old result records.new reply.new }
{
    if !length_right(signal, payload.len()) {
        return commands_reply::refused(reply, signal, 0, Code::Length as u8);
    }
    for octet in payload {
        let seid = *octet / 4;
        match meets(signal, book, records, OurSeid(seid)) {
            Ok(at) => shift_one(records, at.index, to),
            Err(code) => {
                return commands_reply::refused(reply, signal, seid * 4, u8::from(code));
            }
        }
    }
    Said::Accept { length: 0 }
}

// 07 Start.
#[tactic(auto, unfolding(rules::specs::Commands::obey))]
pub fn start(book: RightBook<'_>, records: &mut [u8], payload: &[u8], reply: &mut [u8]) -> Said
    requires { Serves book.octets.now records.old payload.now reply.old }
    ensures { Obeys (obey Start) book.entry.octets.now records.old payload.now reply.old
        result records.new reply.new }
{
    shift(
        Signal::Start,
        State::Streaming,
        book,
        records,
        payload,
        reply,
    )
}

// 09 Suspend.
#[tactic(auto, unfolding(rules::specs::Commands::obey))]
pub fn suspend(book: RightBook<'_>, records: &mut [u8], payload: &[u8], reply: &mut [u8]) -> Said
    requires { Serves book.octets.now records.old payload.now reply.old }
    ensures { Obeys (obey Suspend) book.entry.octets.now records.old payload.now reply.old
        result records.new reply.new }
{
    shift(Signal::Suspend, State::Open, book, records, payload, reply)
}
