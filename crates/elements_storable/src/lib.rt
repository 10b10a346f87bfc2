// Whether octets are a configuration that Set Configuration could have stored: they are in the order in which configurations are
// stored, and their elements pass the test against the offer.
#![tactic(auto)]

ghost use Rattle.std.specs.Prelude.{◌≡◌, false, drop};
ghost use Rattle.rules.specs.Elements.{items, could_store};
ghost use Rattle.elements_reader.specs.Orders.{setting_test};

use elements_offers::{is_offered, length_code};
use elements_order::{Test, in_order};
use elements_reader::Offer;

// What is asked of the elements of a configuration for an endpoint with this offer.
#[derive(Clone, Copy)]
struct Setting<'a> {
    offer: Offer<'a>,
}

impl Test for Setting<'_> {
    ghost again = { false };

    ghost passes = { λ t. setting_test (items t.offer.list.now) };

    fn again(self) -> bool {
        false
    }

    #[tactic(auto, unfolding(elements_reader::specs::Orders::setting_test, elements_reader::specs::Orders::reserved_zero))]
    fn passes(self, category: u8, value: &[u8]) -> bool {
        length_code(category, value.len()).is_ok()
            && (category != 7 || value[0] % 16 == 0)
            && is_offered(self.offer, category, value)
    }
}

// Whether the octets from `at` on could have been stored for an endpoint with this offer.
#[tactic(auto, using(elements_reader::proofs::StoredInOrder::could_in_order))]
pub fn could_store(offer: Offer<'_>, list: &[u8], at: usize) -> bool
    ensures { result ≡ could_store (items offer.entry.list.now) (drop at list.now) }
{
    in_order(Setting { offer }, list, at)
}
