// Storing a configuration: the elements of a command and, where it has none of a category, the one stored before; categories
// ascending.
ghost use Rattle.std.specs.Prelude.{◌≡◌, ◌+◌, ◌≤◌, true, length};
ghost use Rattle.rules.specs.Octets.{member};
ghost use Rattle.rules.specs.Elements.{offerable};
ghost use Rattle.octets.specs.Patch.{patch};
ghost use Rattle.elements_stored.specs.Picked.{one_of, store_of};
ghost use Rattle.elements_stored.specs.Stores.{marked_pick, PickFits};

pub use crate::picks::Picks;

// Writes the element of a category whose value begins at `place` of the list, nothing where that is 0; gives where it ends.
pub fn put_pick(area: &mut [u8], to: usize, category: u8, list: &[u8], place: usize) -> usize
    requires { PickFits list.now place × (to + length (marked_pick category list.now place) ≤ length area.old) }
    ensures area { area.new ≡ patch to (marked_pick category list.now place) area.old }
    ensures end { result ≡ to + length (marked_pick category list.now place) }
{
    if place == 0 {
        return to;
    }
    let size = list[place - 1] as usize;
    area[to] = category;
    octets::put(area, to + 1, octets::part(list, place - 1, size + 1));
    if category == 7 && size != 0 {
        area[to + 2] = list[place] / 16 * 16;
    }
    to + 2 + size
}

// Writes the new element of a category that is stored or, where there is none, the old one; gives where it ends.
#[tactic(auto, unfolding(crate::specs::Stores::either_pick), using(crate::proofs::Fits::fits_at))]
fn put_one(area: &mut [u8], to: usize, category: u8, new: Picks<'_>, old: Picks<'_>) -> usize
    requires { (member category offerable ≡ true) × (to + length (one_of category new old) ≤ length area.old) }
    ensures area { area.new ≡ patch to (one_of category new.entry old.entry) area.old }
    ensures end { result ≡ to + length (one_of category new.entry old.entry) }
{
    let fresh = new.marks.of(category);
    let (list, place) = if fresh == 0 {
        (old.list, old.marks.of(category))
    } else {
        (new.list, fresh)
    };
    put_pick(area, to, category, list, place as usize)
}

// Writes the stored configuration into the area from `to` on; gives its length.
pub fn store(area: &mut [u8], to: usize, new: Picks<'_>, old: Picks<'_>) -> usize
    requires { to + length (store_of new old) ≤ length area.old }
    ensures area { area.new ≡ patch to (store_of new.entry old.entry) area.old }
    ensures length { result ≡ length (store_of new.entry old.entry) }
{
    let mut end = to;
    for category in [1, 2, 4, 7, 8] {
        end = put_one(area, end, category, new, old);
    }
    end - to
}
