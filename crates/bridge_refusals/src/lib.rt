// The tests that stand before every call, in the order of documents 01 and 02: the book where all of them are passed, or why the
// call is refused. That the book is the one that was lent is a clause of each: no type can say it.
#![tactic(auto)]

ghost use Rattle.std.specs.Prelude.{◌≡◌, IfOk};
ghost use Rattle.rules.specs.Host.{saved_number, refusal_of, sized_or, packet_refusal};
ghost use Rattle.rules.specs.Bursts.{burst_refusal};
ghost use Rattle.rules.specs.Refusals.{number_told};

use book::places::RightBook;
use packets_cut::PacketSize;
use rules::refusals::Refusal;
use saved_legal::saved_right;

// The saved connection.
#[tactic(auto, unfolding(rules::specs::Host::saved_number))]
fn saved_test(book: RightBook<'_>, saved: &[u8]) -> Result<(), Refusal>
    ensures { number_told result ≡ saved_number book.entry.octets.now saved.now }
{
    if saved_right(book, saved) {
        Ok(())
    } else {
        Err(Refusal::Saved)
    }
}

// The book and the saved connection.
pub fn refusal<'a>(book: &'a [u8], saved: &[u8]) -> Result<RightBook<'a>, Refusal>
    ensures number { number_told result ≡ refusal_of book.now saved.now }
    ensures right { IfOk result (λ right. right.octets.now ≡ book.now) }
{
    let right = book_check::check(book)?;
    saved_test(right, saved)?;
    Ok(right)
}

// The book and the packet size.
fn sized(book: &[u8], size: usize) -> Result<RightBook<'_>, Refusal>
    ensures number { number_told result ≡ sized_or book.now size 0 }
    ensures right { IfOk result (λ right. right.octets.now ≡ book.now) }
{
    let right = book_check::check(book)?;
    PacketSize::new(size).ok_or(Refusal::PacketSize)?;
    Ok(right)
}

// The book, the packet size, the reply area and the saved connection.
pub fn packet_refusal<'a>(
    book: &'a [u8],
    size: usize,
    saved: &[u8],
    reply: &[u8],
) -> Result<RightBook<'a>, Refusal>
    ensures number { number_told result ≡ packet_refusal book.now size saved.now reply.now }
    ensures right { IfOk result (λ right. right.octets.now ≡ book.now) }
{
    let right = sized(book, size)?;
    if reply.len() < 64 {
        return Err(Refusal::Area);
    }
    saved_test(right, saved)?;
    Ok(right)
}

// Before a burst, the number of its packets is tested behind the packet size, and of the reply area more is asked for.
pub fn burst_refusal<'a>(
    book: &'a [u8],
    size: usize,
    saved: &[u8],
    lengths: &[usize],
    reply: &[u8],
) -> Result<RightBook<'a>, Refusal>
    ensures number { number_told result ≡ burst_refusal book.now size saved.now lengths.now reply.now }
    ensures right { IfOk result (λ right. right.octets.now ≡ book.now) }
{
    let right = sized(book, size)?;
    if 16 < lengths.len() {
        return Err(Refusal::Burst);
    }
    if reply.len() < 1024 {
        return Err(Refusal::Area);
    }
    saved_test(right, saved)?;
    Ok(right)
}
