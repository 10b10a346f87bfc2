// 06 Open: the endpoint opens and awaits its channel, where no other awaits one.
ghost use Rattle.std.specs.Prelude.{◌≡◌, ◌*◌, ◌≤◌, length, eqb};
ghost use Rattle.rules.specs.Endpoints.{awaiting};
ghost use Rattle.rules.specs.Saved.{record_room, ends_in};
ghost use Rattle.rules.specs.Commands.{obey};
ghost use Rattle.rules.specs.declared.Signal.TheVariants.{OpenUp};
ghost use Rattle.commands_reply.specs.Obeys.{Obeys};
ghost use Rattle.commands_checks.specs.Named.{Named};

use book::places::{Place, RightBook};
use commands_reply::{Code, Said};
use rules::Channel;
use saved::records::{get, set_head};
use saved_moves::opened;

// Whether no endpoint awaits its channel.
fn none_awaits(records: &[u8], count: usize) -> bool
    requires { count * record_room ≤ length records.now }
    ensures { result ≡ eqb (awaiting (ends_in count records.now)) 0 }
{
    for i in 0..count {
        if get(records, i).channel == Channel::Awaited {
            return false;
        }
    }
    true
}

#[tactic(auto, using(commands_checks::proofs::Meeting::record_there, crate::proofs::Moving::open_refused))]
pub fn open_up(
    book: RightBook<'_>,
    records: &mut [u8],
    payload: &[u8],
    reply: &mut [u8],
    at: Place,
) -> Said
    requires { Named OpenUp book.octets.now records.old payload.now reply.old at }
    ensures { Obeys (obey OpenUp) book.entry.octets.now records.old payload.now
        reply.old result records.new reply.new }
{
    if !none_awaits(records, book.count()) {
        return commands_reply::rejected(reply, Code::WrongState as u8);
    }
    let h = get(records, at.index);
    set_head(records, at.index, opened(h));
    Said::Accept { length: 0 }
}
