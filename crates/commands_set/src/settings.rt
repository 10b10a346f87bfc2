// 03 Set Configuration: the far SEID, then the elements.
ghost use Rattle.std.specs.Prelude.{◌≡◌, true, get_or};
ghost use Rattle.rules.specs.Endpoints.{far_right};
ghost use Rattle.rules.specs.Commands.{far_in, obey};
ghost use Rattle.rules.specs.declared.Signal.TheVariants.{SetConfiguration};
ghost use Rattle.commands_reply.specs.Obeys.{Obeys};
ghost use Rattle.commands_checks.specs.Named.{Named};

use crate::keeps::{keep, keep_whole};
use crate::offers::offer;
use book::places::{Place, RightBook};
use commands_reply::{Code, Said};
use elements::judges::Command;
use elements::marks::Marks;
use elements::walks::check;
use elements_storable::could_store;
use elements_stored::config::Picks;
use rules::{FarSeid, Signal};
use saved::records::get;
use saved_moves::settled;
use saved_states::far_right;

// The elements in any order: each is checked, and they are stored in the order of a configuration.
#[tactic(auto, using(commands_checks::proofs::Meeting::record_there))]
fn set_picked(
    book: RightBook<'_>,
    records: &mut [u8],
    payload: &[u8],
    reply: &mut [u8],
    at: Place,
    far: FarSeid,
) -> Said
    requires { Named SetConfiguration book.octets.now records.old payload.now reply.old at
        × (far ≡ far_in (get_or payload.now 1 0)) × (far_right far ≡ true) }
    ensures { Obeys (obey SetConfiguration) book.entry.octets.now records.old payload.now
        reply.old result records.new reply.new }
{
    match check(Command::Setting, offer(book, at), payload, 2) {
        Err(fault) => commands_reply::rejected_element(reply, fault),
        Ok(marks) => {
            let new = Picks {
                list: payload,
                marks,
            };
            let none = Picks {
                list: b"",
                marks: Marks::none(),
            };
            let h = get(records, at.index);
            keep(records, at.index, settled(h, far), new, none);
            Said::Accept { length: 0 }
        }
    }
}

// Elements that come in the order of a configuration, as most do, are stored as they came.
#[tactic(auto, using(commands_checks::proofs::Meeting::record_there, crate::proofs::Sets::two))]
pub fn set_configuration(
    book: RightBook<'_>,
    records: &mut [u8],
    payload: &[u8],
    reply: &mut [u8],
    at: Place,
) -> Said
    requires { Named SetConfiguration book.octets.now records.old payload.now reply.old at }
    ensures { Obeys (obey SetConfiguration) book.entry.octets.now records.old payload.now
        reply.old result records.new reply.new }
{
    let far = FarSeid(payload[1] / 4);
    if !far_right(far) {
        return commands_reply::refused(reply, Signal::SetConfiguration, 0, Code::Form as u8);
    }
    if !could_store(offer(book, at), payload, 2) {
        return set_picked(book, records, payload, reply, at, far);
    }
    let h = get(records, at.index);
    keep_whole(records, at.index, settled(h, far), &payload[2..]);
    Said::Accept { length: 0 }
}
