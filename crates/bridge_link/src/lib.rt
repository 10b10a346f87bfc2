// What begins a connection and what the host tells of the link: the calls `fresh` and `event`.
#![tactic(auto)]

ghost use Rattle.rules.specs.Calls.{Freshens, Happens};
ghost use Rattle.rules.specs.Refusals.{number_told};

use bridge_refusals::refusal;
use rules::Event;
use rules::layout::{COUNT_PLACE, LINK_MARK, RECORD, RECORDS};
use rules::refusals::Refusal;
use saved_events::{down, lost, up};

// Begins: `saved` holds a fresh connection over the book, every endpoint idle and nothing gathered. An area too short is refused
// as a saved connection is.
pub fn fresh(book: &[u8], saved: &mut [u8]) -> Result<(), Refusal>
    ensures { Freshens book.now saved.old (number_told result) saved.new }
{
    let right = book_check::check(book)?;
    let entries = right.count();
    if saved.len() < RECORDS + entries * RECORD {
        return Err(Refusal::Saved);
    }
    saved_fresh::begin(right, &mut saved[RECORDS..]);
    saved[COUNT_PLACE] = entries as u8;
    saved[LINK_MARK] = 0;
    Ok(())
}

// Takes a link event: the awaited channel is up, the channel of one of our SEIDs is down, the link is lost.
pub fn event(book: &[u8], saved: &mut [u8], event: Event) -> Result<(), Refusal>
    ensures { Happens book.now saved.old event (number_told result) saved.new }
{
    let right = refusal(book, saved)?;
    match event {
        Event::Up => up(&mut saved[RECORDS..], right.count()),
        Event::Down(seid) => down(right, &mut saved[RECORDS..], seid),
        Event::Lost => {
            lost(&mut saved[RECORDS..], right.count());
            saved[LINK_MARK] = 0;
            Ok(())
        }
    }
}
