// A configuration written into its endpoint's record, once, with the head that tells its length.
ghost use Rattle.std.specs.Prelude.{◌≡◌, ◌+◌, ◌*◌, ◌≤◌, length};
ghost use Rattle.rules.specs.Saved.{record_room};
ghost use Rattle.octets.specs.Patch.{patch};
ghost use Rattle.elements_stored.specs.Stores.{marked_store};
ghost use Rattle.commands_set.specs.Kept.{kept_octets};

use elements_stored::config::{Picks, store};
use rules::Head;
use rules::layout::{HEAD, RECORD};
use saved::records::set;

// Stores into record `index` the head and the configuration that is picked of the two lists.
#[tactic(auto, using(crate::proofs::Doings::kept_by))]
pub fn keep(records: &mut [u8], index: usize, head: Head, new: Picks<'_>, old: Picks<'_>)
    requires { ((index + 1) * record_room ≤ length records.old)
        × (length (marked_store new.list.now new.marks old.list.now old.marks) ≤ 64) }
    ensures { records.new
        ≡ patch (index * record_room)
        (kept_octets head (marked_store new.entry.list.now new.entry.marks old.entry.list.now old.entry.marks))
        records.old }
{
    let length = store(records, index * RECORD + HEAD, new, old);
    set(records, index, head, length as u8);
}

// Stores into record `index` the head and the configuration, as it stands.
#[tactic(auto, using(crate::proofs::Doings::kept_by))]
pub fn keep_whole(records: &mut [u8], index: usize, head: Head, config: &[u8])
    requires { ((index + 1) * record_room ≤ length records.old) × (length config.now ≤ 64) }
    ensures { records.new
        ≡ patch (index * record_room) (kept_octets head config.now) records.old }
{
    octets::put(records, index * RECORD + HEAD, config);
    set(records, index, head, config.len() as u8);
}
