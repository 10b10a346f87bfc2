// The walk of a list in the order in which the elements of a right list stand, over any test of an element: the lists of a book's
// entries and stored configurations are walked by it. What may follow an element hangs on its category alone, so there is a
// function for each, whose `match` is that category's row of `followers`; only content protection may follow itself, and so only
// its function calls itself.
#![tactic(auto, using(crate::proofs::Steps::steps), unfolding(elements_reader::specs::Orders::followers))]

ghost use Rattle.std.specs.Prelude.{◌≡◌, ℕ, List, Bool, ◌&&◌, ◌+◌, ◌≤◌, length, drop};
ghost use Rattle.rules.specs.Elements.{items};
ghost use Rattle.octets.specs.Patch.{part};
ghost use Rattle.elements_reader.specs.Orders.{in_order};

use elements_reader::{Element, element_at};
use octets::part;

// What is asked of the elements of a list besides their order.
pub trait Test: Copy {
    // What the two functions tell.
    ghost again: { Bool };

    ghost passes: { Self → ℕ → List ℕ → Bool };

    // Whether content protection may follow itself. No constant: an impl for a type with a lifetime has none yet.
    fn again(self) -> bool
        ensures { result ≡ again };

    // Whether the value of an element of this category passes.
    fn passes(self, category: u8, value: &[u8]) -> bool
        ensures { result ≡ passes self category value.now };
}

// What is left behind the codec: delay reporting, or nothing.
fn after_codec<T: Test>(test: T, list: &[u8], at: usize) -> bool
    ensures { result ≡ in_order T.again (T.passes test) 7 (items (drop at list.now)) }
{
    match element_at(list, at) {
        Element::End => true,
        Element::Short { .. } => false,
        Element::Whole {
            category,
            length,
            first,
        } => match category {
            8 => test.passes(8, part(list, first, length)) && list.len() <= first + length,
            _ => false,
        },
    }
}

// The codec, whose value of `size` octets stands at `first`, and what is left behind it.
fn codec_right<T: Test>(test: T, list: &[u8], first: usize, size: usize) -> bool
    requires { first + size ≤ length list.now }
    ensures { result ≡ (T.passes test 7 (part first size list.now)
        && in_order T.again (T.passes test) 7 (items (drop (first + size) list.now))) }
{
    test.passes(7, part(list, first, size)) && after_codec(test, list, first + size)
}

// What is left behind content protection: the codec, or more of it where it may follow itself.
fn after_protection<T: Test>(test: T, list: &[u8], at: usize) -> bool
    ensures { result ≡ in_order T.again (T.passes test) 4 (items (drop at list.now)) }
{
    let Element::Whole {
        category,
        length,
        first,
    } = element_at(list, at)
    else {
        return false;
    };
    match category {
        4 if test.again() => test.passes(4, part(list, first, length))
            && after_protection(test, list, first + length),
        7 => codec_right(test, list, first, length),
        _ => false,
    }
}

// What is left behind reporting: content protection or the codec.
fn after_reporting<T: Test>(test: T, list: &[u8], at: usize) -> bool
    ensures { result ≡ in_order T.again (T.passes test) 2 (items (drop at list.now)) }
{
    // where content protection may follow itself, the same is left as behind it: an entry's list pays for no other walk
    if test.again() {
        return after_protection(test, list, at);
    }
    let Element::Whole {
        category,
        length,
        first,
    } = element_at(list, at)
    else {
        return false;
    };
    match category {
        4 => test.passes(4, part(list, first, length))
            && after_protection(test, list, first + length),
        7 => codec_right(test, list, first, length),
        _ => false,
    }
}

// What is left behind the media transport: reporting, or what may be left behind it.
fn after_transport<T: Test>(test: T, list: &[u8], at: usize) -> bool
    ensures { result ≡ in_order T.again (T.passes test) 1 (items (drop at list.now)) }
{
    let Element::Whole {
        category,
        length,
        first,
    } = element_at(list, at)
    else {
        return false;
    };
    match category {
        2 => test.passes(2, part(list, first, length))
            && after_reporting(test, list, first + length),
        7 => codec_right(test, list, first, length),
        _ => after_reporting(test, list, at),
    }
}

// Whether the list from `at` on is in order and its elements pass. It begins with the media transport.
pub fn in_order<T: Test>(test: T, list: &[u8], at: usize) -> bool
    ensures { result ≡ in_order T.again (T.passes test) 0 (items (drop at list.now)) }
{
    let Element::Whole {
        category,
        length,
        first,
    } = element_at(list, at)
    else {
        return false;
    };
    match category {
        1 => test.passes(1, part(list, first, length))
            && after_transport(test, list, first + length),
        _ => false,
    }
}
