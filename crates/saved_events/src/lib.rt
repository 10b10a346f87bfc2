// Link events over the records of a saved connection. That the records are `Held` stands in each contract: they are lent to be
// written, and a ghost field beside a `&mut` has no proof.
#![tactic(auto)]

ghost use Rattle.std.specs.Prelude.{◌≡◌, length};
ghost use Rattle.rules.specs.Book.{book_of};
ghost use Rattle.rules.specs.Refusals.{number_told};
ghost use Rattle.saved.specs.Held.{Held};
ghost use Rattle.saved_events.specs.Events.{MovedRecords, upped, downed, all_idle};

use book::places::RightBook;
use rules::OurSeid;
use rules::refusals::Refusal;
use saved::records::{get, set, set_head};
use saved_lent::switch_channel;
use saved_states::{is_awaited, is_up};

// Channel up, over `count` records: the awaiting endpoint gets it.
pub fn up(records: &mut [u8], count: usize) -> Result<(), Refusal>
    requires { Held count records.old }
    ensures { ◌≡◌ {A = MovedRecords} (record { number = number_told result; records = records.new })
        (upped count records.old) }
{
    for index in 0..count {
        let mut head = get(records, index);
        if is_awaited(head.channel) {
            switch_channel(&mut head, true);
            set_head(records, index, head);
            return Ok(());
        }
    }
    Err(Refusal::NotApplicable)
}

// Channel down for one of our SEIDs: its endpoint becomes idle, if it has a channel.
pub fn down(book: RightBook<'_>, records: &mut [u8], seid: OurSeid) -> Result<(), Refusal>
    requires { Held (length (book_of book.octets.now)) records.old }
    ensures { ◌≡◌ {A = MovedRecords} (record { number = number_told result; records = records.new })
        (downed seid (book_of book.entry.octets.now) records.old) }
{
    let Some(place) = book.locate(seid) else {
        return Err(Refusal::NotApplicable);
    };
    let mut head = get(records, place.index);
    if !is_up(head.channel) {
        return Err(Refusal::NotApplicable);
    }
    switch_channel(&mut head, false);
    set(records, place.index, head, 0);
    Ok(())
}

// Link lost, over `count` records: all idle.
pub fn lost(records: &mut [u8], count: usize)
    requires { Held count records.old }
    ensures { records.new ≡ all_idle count records.old }
{
    for i in 0..count {
        let head = get(records, i);
        set(records, i, saved_moves::idle(head.seid), 0);
    }
}
