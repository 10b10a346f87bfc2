// The records of a fresh connection: every endpoint of the book idle.
#![tactic(auto)]

ghost use Rattle.std.specs.Prelude.{◌≡◌, ◌*◌, ◌≤◌, length};
ghost use Rattle.rules.specs.Book.{book_of};
ghost use Rattle.rules.specs.Endpoints.{fresh_connection};
ghost use Rattle.rules.specs.Saved.{record_room, store_ends};

use book::places::RightBook;
use saved_moves::idle;

// Writes the head of a record for each entry of the book; the octets behind the heads stay.
pub fn begin(book: RightBook<'_>, records: &mut [u8])
    requires { length (book_of book.octets.now) * record_room ≤ length records.old }
    ensures { records.new ≡ store_ends (fresh_connection (book_of book.entry.octets.now)).ends records.old }
{
    let mut at = 6;
    for i in 0..book.count() {
        let entry = book.entry(at);
        saved::records::set(records, i, idle(entry.seid), 0);
        at = entry.from + entry.list.len();
    }
}
