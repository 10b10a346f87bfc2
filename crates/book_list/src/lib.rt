// Whether the list of an entry is right: it is in order, and its elements pass the test of its media type.
#![tactic(auto)]

ghost use Rattle.std.specs.Prelude.{◌≡◌, ◌≤◌, true};
ghost use Rattle.rules.specs.Elements.{items};
ghost use Rattle.rules.specs.Book.{list_right};
ghost use Rattle.elements_reader.specs.Orders.{offer_test};

use elements_offers::length_code;
use elements_order::{Test, in_order};

// What is asked of the elements of an entry with this media type.
#[derive(Clone, Copy)]
struct OfMedia {
    media: u8,
    ghost fits: { media ≤ 15 },
}

impl Test for OfMedia {
    ghost again = { true };

    ghost passes = { λ t. offer_test t.media };

    fn again(self) -> bool {
        true
    }

    #[tactic(auto, unfolding(elements_reader::specs::Orders::offer_test, rules::specs::Elements::start_right))]
    fn passes(self, category: u8, value: &[u8]) -> bool {
        length_code(category, value.len()).is_ok() && (category != 7 || value[0] == self.media * 16)
    }
}

// Whether a list is right as the offer of an entry with this media type.
#[tactic(auto, using(elements_reader::proofs::InOrder::list_in_order))]
pub fn list_right(media: u8, list: &[u8]) -> bool
    requires { media ≤ 15 }
    ensures { result ≡ list_right media (items list.now) }
{
    in_order(OfMedia { media }, list, 0)
}
