// Whether an element is offered, and whether its length is right.
#![tactic(auto)]

ghost use Rattle.std.specs.Prelude.{◌≡◌, ◌≤◌, drop, IfErr};
ghost use Rattle.rules.specs.Elements.{items, category_of, length_code, bits_within, codec_within, value_within, offered};
ghost use Rattle.elements_offers.specs.Codes.{code_told};

use elements_reader::{Element, Offer, element_at};

// Whether a value of this length is right, or the code of its failure, which is not 0.
#[tactic(auto, unfolding(rules::specs::Elements::category_of, rules::specs::Elements::length_code))]
pub fn length_code(category: u8, length: usize) -> Result<(), u8>
    ensures code { code_told result ≡ length_code (category_of category) length }
    ensures told { IfErr result (λ code. 1 ≤ code) }
{
    match category {
        1 if length != 0 => Err(0x23),
        2 | 8 if length != 0 => Err(0x18),
        3 if length != 3 => Err(0x25),
        4 if length < 2 => Err(0x27),
        5 if length != 1 => Err(0x26),
        6 if length == 0 => Err(0x28),
        7 if length < 2 => Err(0x18),
        1..=8 => Ok(()),
        _ => Err(0x17),
    }
}

// Whether each octet has no bit that the offered octet lacks, and there are as many.
fn bits_within(value: &[u8], offer: &[u8]) -> bool
    ensures { result ≡ bits_within value.now offer.now }
{
    value.len() == offer.len() && value.iter().zip(offer).all(|(x, y)| x & y == *x)
}

// Whether a codec's value is within the offered one: media type, codec type, then bits.
#[tactic(auto, using(crate::proofs::Codecs::lone_value, crate::proofs::Codecs::lone_offer, crate::proofs::Codecs::by_octets))]
pub fn codec_within(value: &[u8], offer: &[u8]) -> bool
    ensures { result ≡ codec_within value.now offer.now }
{
    match (value, offer) {
        ([m, t, bits @ ..], [n, u, offered @ ..]) => m / 16 == n / 16
            && t == u
            && bits_within(bits, offered),
        _ => false,
    }
}

// Whether a value is within one offered value of its category.
#[tactic(auto, unfolding(rules::specs::Elements::category_of, rules::specs::Elements::value_within))]
pub fn value_within(category: u8, value: &[u8], offer: &[u8]) -> bool
    ensures { result ≡ value_within (category_of category) value.now offer.now }
{
    match category {
        4 => octets::same(value, offer),
        7 => codec_within(value, offer),
        _ => true,
    }
}

// Whether the list from `at` on offers the element.
pub fn offers(caps: &[u8], at: usize, category: u8, value: &[u8]) -> bool
    ensures { result ≡ offered (items (drop at caps.now)) category value.now }
{
    let Element::Whole {
        category: c,
        length,
        first,
    } = element_at(caps, at)
    else {
        return false;
    };
    c == category && value_within(category, value, octets::part(caps, first, length))
        || offers(caps, first + length, category, value)
}

// Whether an offer has the element. It begins with the media transport, which has no value: that one is offered, and any other
// is looked for behind it.
pub fn is_offered(offer: Offer<'_>, category: u8, value: &[u8]) -> bool
    ensures { result ≡ offered (items offer.entry.list.now) category value.now }
{
    category == 1 || offers(offer.list, 2, category, value)
}
