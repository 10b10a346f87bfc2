// The check of a book, which is refused with the number that the host is told. One pass, entry after entry.
#![tactic(auto)]

ghost use Rattle.std.specs.Prelude.{◌≡◌, ◌≤◌, length, drop, get_or, IfOk};
ghost use Rattle.rules.specs.Book.{entries_number, book_number};
ghost use Rattle.rules.specs.Refusals.{number_told};
ghost use Rattle.book.specs.Entries.{entry_number};

use book::places::RightBook;
use rules::refusals::Refusal;

// The entry at `at`, after one with the SEID `before` (0: none).
fn check_entry(book: &[u8], at: usize, before: u8) -> Result<(), Refusal>
    requires { at ≤ length book.now }
    ensures { number_told result ≡ entry_number before book.now at }
{
    if book.len() - at < 3 {
        return Err(Refusal::BookLength);
    }
    let seid = book[at];
    if seid <= before || 62 < seid {
        return Err(Refusal::BookSeid);
    }
    let kind = book[at + 1];
    if kind % 8 != 0 || 2 < kind / 16 {
        return Err(Refusal::BookKind);
    }
    let size = book[at + 2] as usize;
    if 64 < size {
        return Err(Refusal::BookList);
    }
    let list = at + 3;
    if book.len() - list < size {
        return Err(Refusal::BookLength);
    }
    if !book_list::list_right(kind / 16, octets::part(book, list, size)) {
        return Err(Refusal::BookList);
    }
    Ok(())
}

// The entries, left to right.
fn check_entries(book: &[u8]) -> Result<(), Refusal>
    requires { 6 ≤ length book.now }
    ensures { number_told result ≡ entries_number (get_or book.now 5 0) 0 (drop 6 book.now) }
{
    let mut at = 6;
    let mut before = 0;
    for i in 0..book[5] {
        check_entry(book, at, before)?;
        before = book[at];
        at = at + 3 + book[at + 2] as usize;
    }
    if at == book.len() {
        Ok(())
    } else {
        Err(Refusal::BookLength)
    }
}

// Whether a book is right, or why it is refused.
#[inline(never)]
fn judge(book: &[u8]) -> Result<(), Refusal>
    ensures { number_told result ≡ book_number book.now }
{
    if book.len() < 6 {
        return Err(Refusal::BookLength);
    }
    if !octets::same(octets::part(book, 0, 3), b"HLB") {
        return Err(Refusal::BookMark);
    }
    if !octets::same(octets::part(book, 3, 2), b"\x00\x01") {
        return Err(Refusal::BookVersion);
    }
    let count = book[5];
    if count == 0 || 16 < count {
        return Err(Refusal::BookCount);
    }
    check_entries(book)
}

// A right book, or why it is refused. A function that answers the book too answers through memory, which a call on a wrong book
// or a small one would feel: so `judge` is called, and this is compiled into who calls it.
#[inline(always)]
#[tactic(auto, using(rules::proofs::Refusing::handed_on))]
pub fn check(book: &[u8]) -> Result<RightBook<'_>, Refusal>
    ensures number { number_told result ≡ book_number book.now }
    ensures right { IfOk result (λ b. b.octets.now ≡ book.now) }
{
    judge(book)?;
    Ok(RightBook { octets: book })
}
