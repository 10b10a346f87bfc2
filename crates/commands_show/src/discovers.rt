// 01 Discover: two octets for each entry of the book, its SEID with whether it is in use, and its kind octet.
ghost use Rattle.std.specs.Prelude.{◌≡◌, ◌+◌, ◌*◌, ◌≤◌, length};
ghost use Rattle.rules.specs.Octets.{front};
ghost use Rattle.rules.specs.Book.{book_of};
ghost use Rattle.rules.specs.Saved.{record_room, endpoint_in, record_at};
ghost use Rattle.rules.specs.Commands.{accept, in_use, obey};
ghost use Rattle.rules.specs.declared.Signal.TheVariants.{Discover};
ghost use Rattle.saved.specs.Serves.{Serves};
ghost use Rattle.commands_reply.specs.Answers.{said_of};
ghost use Rattle.commands_reply.specs.Obeys.{Obeys};
ghost use Rattle.commands_show.specs.Shown.{all};

use book::places::RightBook;
use commands_checks::tables::length_right;
use commands_reply::{Code, Said};
use rules::{Signal, State};
use saved::records::get;

// The bit that says that the endpoint of record i is in use.
#[tactic(auto, unfolding(rules::specs::Commands::in_use, rules::specs::Saved::endpoint_in, rules::specs::Endpoints::is_idle))]
fn in_use(records: &[u8], i: usize) -> u8
    requires { (i + 1) * record_room ≤ length records.now }
    ensures { result ≡ in_use (endpoint_in (record_at i records.now)) }
{
    if get(records, i).state == State::Idle {
        0
    } else {
        2
    }
}

// Writes the whole answer, of which there are at most 32 octets.
fn list_entries(book: RightBook<'_>, records: &[u8], reply: &mut [u8]) -> Said
    requires { (length (book_of book.octets.now) * record_room ≤ length records.now) × (32 ≤ length reply.old) }
    ensures said { result ≡ said_of (accept (all book.entry.octets.now records.now)) }
    ensures reply { reply.new ≡ front (all book.entry.octets.now records.now) reply.old }
{
    let entries = book.count();
    let mut at = 6;
    for i in 0..entries {
        let entry = book.entry(at);
        reply[i * 2] = entry.seid.0 * 4 + in_use(records, i);
        reply[i * 2 + 1] = entry.kind;
        at = entry.from + entry.list.len();
    }
    Said::Accept {
        length: entries * 2,
    }
}

#[tactic(auto, using(crate::proofs::Discovering::shows_entries, crate::proofs::Discovering::shows_too_long))]
pub fn discover(book: RightBook<'_>, records: &[u8], payload: &[u8], reply: &mut [u8]) -> Said
    requires { Serves book.octets.now records.now payload.now reply.old }
    ensures { Obeys (obey Discover) book.entry.octets.now records.now payload.now
        reply.old result records.now reply.new }
{
    if length_right(Signal::Discover, payload.len()) {
        list_entries(book, records, reply)
    } else {
        commands_reply::rejected(reply, Code::Length as u8)
    }
}
