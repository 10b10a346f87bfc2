// The parts of a saved area, where they are read. What is lent to be written begins at the same named places.
ghost use Rattle.std.specs.Prelude.{◌≡◌, ◌≤◌, length};
ghost use Rattle.rules.specs.Saved.{count_room, records_place, count_in, link_of, records_of};

use rules::layout::{COUNT, COUNT_PLACE, LINK, RECORDS};

// How many records there are.
#[tactic(auto, unfolding(rules::specs::Saved::count_in))]
pub fn count_in(saved: &[u8]) -> u8
    requires { count_room ≤ length saved.now }
    ensures { result ≡ count_in saved.now }
{
    saved[COUNT_PLACE]
}

#[tactic(auto, unfolding(rules::specs::Saved::link_of, octets::specs::Patch::part))]
pub fn link_of(saved: &[u8]) -> &[u8]
    requires { records_place ≤ length saved.now }
    ensures { result.now ≡ link_of saved.now }
{
    octets::part(saved, COUNT, LINK)
}

pub fn records_of(saved: &[u8]) -> &[u8]
    requires { records_place ≤ length saved.now }
    ensures { result.now ≡ records_of saved.now }
{
    &saved[RECORDS..]
}
