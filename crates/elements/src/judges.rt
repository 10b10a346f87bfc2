// An element of a command, and what the command lacks at its end.
ghost use Rattle.std.specs.Prelude.{◌≡◌, false};
ghost use Rattle.rules.specs.Elements.{items, whole, category_of, is_strange, fixed, item_code, lacking};
ghost use Rattle.elements.specs.Marks.{seen_in};
ghost use Rattle.elements.specs.Walks.{rule_of, judged_as, lacked_as};

use crate::marks::Marks;
use elements_offers::{is_offered, length_code};
use elements_reader::Offer;
use rules::Fault;

// The commands that have elements: Set Configuration and Reconfigure. No `rules::Rule`: that has a third, an entry's offer, which
// is judged by the order of its elements, and marks do not keep an order.
#[derive(Clone, Copy, PartialEq, Eq)]
pub enum Command {
    Setting,
    Reconfiguring,
}

// Whether a category is none of 1 to 8.
#[tactic(auto, unfolding(rules::specs::Elements::is_strange), using(crate::proofs::Known::kinds))]
fn is_strange(category: u8) -> bool
    ensures { result ≡ is_strange (category_of category) }
{
    !matches!(category, 1..=8)
}

// Whether the command is Reconfigure, which takes no element of this category.
#[tactic(auto, unfolding(rules::specs::Elements::category_of, rules::specs::Elements::fixed), using(crate::proofs::Known::kinds))]
fn is_fixed(command: Command, category: u8) -> bool
    requires { is_strange (category_of category) ≡ false }
    ensures { result ≡ fixed (rule_of command) (category_of category) }
{
    command == Command::Reconfiguring && !matches!(category, 4 | 7)
}

// Whether a whole element has no failure, or the code of its first: an octet of the reply, as the definitions have it.
#[tactic(auto, unfolding(rules::specs::Elements::item_code), using(crate::proofs::Passing::seen_mark))]
pub fn item_code(
    command: Command,
    offer: Offer<'_>,
    marks: Marks,
    category: u8,
    value: &[u8],
) -> Result<(), u8>
    ensures { result
        ≡ judged_as (item_code (rule_of command) (items offer.entry.list.now) (seen_in marks) (whole category value.now)) }
{
    if is_strange(category) {
        return Err(0x17);
    }
    if is_fixed(command, category) {
        return Err(0x1A);
    }
    if marks.of(category) != 0 {
        return Err(0x18);
    }
    length_code(category, value.len())?;
    if is_offered(offer, category, value) {
        Ok(())
    } else {
        Err(0x29)
    }
}

// What a command with these marks lacks at its end: 1, then 7, and a Reconfigure nothing.
#[tactic(auto, using(crate::proofs::Judging::lacks))]
pub fn lacks(command: Command, marks: Marks) -> Result<(), Fault>
    ensures { result ≡ lacked_as (lacking (rule_of command) (seen_in marks)) }
{
    if command == Command::Reconfiguring {
        return Ok(());
    }
    if marks.transport == 0 {
        return Err(Fault {
            category: 1,
            code: 0x29,
        });
    }
    if marks.codec == 0 {
        return Err(Fault {
            category: 7,
            code: 0x29,
        });
    }
    Ok(())
}
