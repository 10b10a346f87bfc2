// 05 Reconfigure: the elements.
ghost use Rattle.std.specs.Prelude.{◌≡◌, ◌*◌, drop};
ghost use Rattle.rules.specs.Elements.{items, restored};
ghost use Rattle.rules.specs.Saved.{record_room};
ghost use Rattle.rules.specs.Commands.{obey};
ghost use Rattle.rules.specs.declared.Signal.TheVariants.{Reconfigure};
ghost use Rattle.octets.specs.Patch.{patch};
ghost use Rattle.saved.specs.Records.{config_at};
ghost use Rattle.commands_reply.specs.Obeys.{Obeys};
ghost use Rattle.commands_checks.specs.Named.{Named};
ghost use Rattle.commands_set.specs.Kept.{Renews, kept_octets};

use crate::keeps::keep;
use crate::offers::offer;
use book::places::{Place, RightBook};
use commands_reply::Said;
use elements::judges::Command;
use elements::marks::Marks;
use elements::walks::{check, places};
use elements_stored::config::Picks;
use rules::Head;
use rules::layout::CONFIG;
use saved::records::{config, get};

// The elements are checked: they take the place of those of the stored configuration, or are added to them. What is stored is
// copied first, as it is read while it is written anew.
fn renew(records: &mut [u8], index: usize, head: Head, new: Picks<'_>)
    requires { Renews records.old new.list.now index head new.marks }
    ensures { records.new
        ≡ patch (index * record_room)
        (kept_octets head (restored (items (drop 1 new.entry.list.now)) (items (config_at index records.old))))
        records.old }
{
    // an array and its front: a vector of fixed room would be the one thing that the library takes of the kit besides std
    let mut copy = [0u8; CONFIG];
    let stored = config(records, index);
    let size = stored.len();
    octets::put(&mut copy, 0, stored);
    let list = &copy[..size];
    let marks = places(list, 0, Marks::none());
    keep(records, index, head, new, Picks { list, marks });
}

#[tactic(auto, using(commands_checks::proofs::Meeting::record_there))]
pub fn reconfigure(
    book: RightBook<'_>,
    records: &mut [u8],
    payload: &[u8],
    reply: &mut [u8],
    at: Place,
) -> Said
    requires { Named Reconfigure book.octets.now records.old payload.now reply.old at }
    ensures { Obeys (obey Reconfigure) book.entry.octets.now records.old payload.now
        reply.old result records.new reply.new }
{
    match check(Command::Reconfiguring, offer(book, at), payload, 1) {
        Err(fault) => commands_reply::rejected_element(reply, fault),
        Ok(marks) => {
            let new = Picks {
                list: payload,
                marks,
            };
            let h = get(records, at.index);
            renew(records, at.index, h, new);
            Said::Accept { length: 0 }
        }
    }
}
