// The checks themselves: for one SEID, and for a payload whose first octet holds it.
ghost use Rattle.std.specs.Prelude.{◌≡◌, true, length};
ghost use Rattle.rules.specs.Book.{book_of};
ghost use Rattle.saved.specs.Held.{Held};
ghost use Rattle.commands_checks.specs.Met.{names_one, met_of, met_in, met_told};

use crate::tables::{length_right, may, wrong_state};
use book::places::{Place, RightBook};
use commands_reply::Code;
use rules::{OurSeid, Signal};
use saved::records::get;

// Known, then the state: where the endpoint stands in the book, or why the command is refused.
#[inline(always)]
pub fn meets(
    signal: Signal,
    book: RightBook<'_>,
    records: &[u8],
    seid: OurSeid,
) -> Result<Place, Code>
    requires { Held (length (book_of book.octets.now)) records.now }
    ensures { met_told result ≡ met_of signal book.entry.octets.now records.now seid }
{
    let at = book.locate(seid).ok_or(Code::NoEndpoint)?;
    let head = get(records, at.index);
    if may(signal, head.state, head.channel) {
        Ok(at)
    } else {
        Err(wrong_state(signal, head.state))
    }
}

// Length, known, state, of a command that names one endpoint.
pub fn preamble(
    signal: Signal,
    book: RightBook<'_>,
    records: &[u8],
    payload: &[u8],
) -> Result<Place, Code>
    requires { (names_one signal ≡ true) × Held (length (book_of book.octets.now)) records.now }
    ensures { met_told result ≡ met_in signal book.entry.octets.now records.now payload.now }
{
    if length_right(signal, payload.len()) {
        meets(signal, book, records, OurSeid(payload[0] / 4))
    } else {
        Err(Code::Length)
    }
}
