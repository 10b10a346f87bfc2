// Close and Abort: with a channel the endpoint is closing or aborting from then on, without one it is idle. The two signals leave
// alike, for a state each.
ghost use Rattle.std.specs.Prelude.{◌≡◌, [], ◌+◌, ◌*◌, ◌≤◌, length};
ghost use Rattle.rules.specs.Saved.{record_room};
ghost use Rattle.rules.specs.Commands.{accept, obey};
ghost use Rattle.commands_reply.specs.Answers.{said_of};
ghost use Rattle.rules.specs.declared.Signal.TheVariants.{Close, Abort};
ghost use Rattle.commands_reply.specs.Obeys.{Obeys};
ghost use Rattle.commands_checks.specs.Named.{Named};
ghost use Rattle.commands_stream.specs.Left.{left_at};

use book::places::{Place, RightBook};
use commands_reply::Said;
use rules::State;
use saved::records::{get, set, set_head};
use saved_moves::{idle, in_state};
use saved_states::is_up;

// Endpoint `index` leaves for the state `to`.
fn leave(records: &mut [u8], index: usize, to: State) -> Said
    requires { (index + 1) * record_room ≤ length records.old }
    ensures said { result ≡ said_of (accept []) }
    ensures records { records.new ≡ left_at to index records.old }
{
    let h = get(records, index);
    if is_up(h.channel) {
        set_head(records, index, in_state(h, to));
    } else {
        set(records, index, idle(h.seid), 0);
    }
    Said::Accept { length: 0 }
}

// 08 Close.
#[tactic(auto, using(commands_checks::proofs::Meeting::record_there))]
pub fn close(
    book: RightBook<'_>,
    records: &mut [u8],
    payload: &[u8],
    reply: &mut [u8],
    at: Place,
) -> Said
    requires { Named Close book.octets.now records.old payload.now reply.old at }
    ensures { Obeys (obey Close) book.entry.octets.now records.old payload.now
        reply.old result records.new reply.new }
{
    leave(records, at.index, State::Closing)
}

// 0A Abort.
#[tactic(auto, using(commands_checks::proofs::Meeting::record_there))]
pub fn abort(
    book: RightBook<'_>,
    records: &mut [u8],
    payload: &[u8],
    reply: &mut [u8],
    at: Place,
) -> Said
    requires { Named Abort book.octets.now records.old payload.now reply.old at }
    ensures { Obeys (obey Abort) book.entry.octets.now records.old payload.now
        reply.old result records.new reply.new }
{
    leave(records, at.index, State::Aborting)
}
