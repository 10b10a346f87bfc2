// Whether a saved connection is one that the host may hand over, for octets of any length: number 12 where not. One pass over the
// book and the records, of which there must be as many.
#![tactic(auto)]

mod records;

ghost use Rattle.std.specs.Prelude.{◌≡◌};
ghost use Rattle.rules.specs.Book.{book_of};
ghost use Rattle.rules.specs.Saved.{saved_right};

use book::places::RightBook;
use rules::layout::{RECORD, RECORDS};
use saved::parts::{count_in, link_of, records_of};
use saved_gathering::room_legal;

#[tactic(auto, using(crate::proofs::RightSaved::parts))]
pub fn saved_right(book: RightBook<'_>, saved: &[u8]) -> bool
    ensures { result ≡ saved_right (book_of book.entry.octets.now) saved.now }
{
    let entries = book.count();
    RECORDS + entries * RECORD <= saved.len()
        && count_in(saved) as usize == entries
        && room_legal(link_of(saved))
        && records::records_legal(book, records_of(saved))
}
