// The walk over the elements of a command: by recursion on the octets left, each element judged, until the first that fails or
// the end, where is told what is missing.
ghost use Rattle.std.specs.Prelude.{◌≡◌, ◌≤◌, length};
ghost use Rattle.rules.specs.Elements.{items, lacking};
ghost use Rattle.elements.specs.Marks.{seen_in, marks_from};
ghost use Rattle.elements.specs.Walks.{rule_of, walked_as, walk_of, check_of};

use crate::judges::{Command, item_code, lacks};
use crate::marks::Marks;
use elements_reader::{Element, Offer, element_at};
use rules::Fault;

// The end of a list with these marks.
#[tactic(auto, unfolding(crate::specs::Walks::walked_as))]
fn ended(command: Command, marks: Marks) -> Result<Marks, Fault>
    ensures { result ≡ walked_as (lacking (rule_of command) (seen_in marks)) marks }
{
    lacks(command, marks)?;
    Ok(marks)
}

// The list from `at` on, after the elements that have these marks. Where it ends, it returns at once: as the value of the `match`
// the answer would be put together piece by piece at every turn.
#[tactic(auto, using(crate::proofs::Judging::turns))]
pub fn walk(
    command: Command,
    offer: Offer<'_>,
    list: &[u8],
    at: usize,
    marks: Marks,
) -> Result<Marks, Fault>
    requires { length list.now ≤ 65535 }
    ensures { result ≡ walk_of (rule_of command) (items offer.entry.list.now) list.now at marks }
{
    match element_at(list, at) {
        Element::End => return ended(command, marks),
        Element::Short { category } => return Err(Fault {
            category,
            code: 0x11,
        }),
        Element::Whole {
            category,
            length,
            first,
        } => {
            let value = octets::part(list, first, length);
            item_code(command, offer, marks, category, value).map_err(|code| Fault {
                category,
                code,
            })?;
            walk(
                command,
                offer,
                list,
                first + length,
                marks.passed(category, first as u16),
            )
        }
    }
}

// The list that begins at `at`, of a command to an endpoint with this offer.
#[tactic(auto, using(crate::proofs::Judging::walk_begun))]
pub fn check(command: Command, offer: Offer<'_>, list: &[u8], at: usize) -> Result<Marks, Fault>
    requires { length list.now ≤ 65535 }
    ensures { result ≡ check_of (rule_of command) (items offer.entry.list.now) list.now at }
{
    walk(command, offer, list, at, Marks::none())
}

// Where the elements of a list stand that needs no check: from `at` on, after the elements that have these marks.
#[tactic(auto, using(crate::proofs::Passing::turns))]
pub fn places(list: &[u8], at: usize, marks: Marks) -> Marks
    requires { length list.now ≤ 65535 }
    ensures { result ≡ marks_from list.now at marks }
{
    let Element::Whole {
        category,
        length,
        first,
    } = element_at(list, at)
    else {
        return marks;
    };
    places(list, first + length, marks.passed(category, first as u16))
}
