// What the endpoint that was met offers.
ghost use Rattle.std.specs.Prelude.{◌≡◌};
ghost use Rattle.octets.specs.Patch.{part};
ghost use Rattle.commands_set.specs.Kept.{Offers};

use book::places::{Place, RightBook};
use elements_reader::Offer;

// The list of an entry, which in a right book begins with the media transport.
pub fn offer<'a>(book: RightBook<'a>, at: Place) -> Offer<'a>
    requires { Offers book.octets.now at }
    ensures { result.list.now ≡ part at.from at.size book.entry.octets.now }
{
    Offer {
        list: octets::part(book.octets, at.from, at.size),
    }
}
