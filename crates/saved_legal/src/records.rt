// The records of a saved connection, each against its entry of the book.
ghost use Rattle.std.specs.Prelude.{◌≡◌, ◌&&◌, ◌||◌, ◌*◌, ◌≤◌, length, eqb};
ghost use Rattle.rules.specs.Book.{book_of};
ghost use Rattle.rules.specs.Endpoints.{channel_right};
ghost use Rattle.rules.specs.Saved.{record_room, record_right};
ghost use Rattle.elements_reader.specs.Orders.{TransportFirst};
ghost use Rattle.saved_legal.specs.Legal.{used_right, idles_in, awaits_in, awaited_in, record_legal, records_legal};

use book::places::{Entry, RightBook};
use elements_reader::Offer;
use octets_alone::alone;
use rules::layout::{
    CHANNEL, CONFIG, CONFIG_LENGTH, DELAY_HIGH, DELAY_LOW, DELAY_MARK, SEID, STATE, UNUSED,
};
use rules::{Channel, OurSeid, State};
use saved::records::Slot;
use saved_keeps::{keeps_nothing, keeps_settings};
use saved_states::{is_absent, is_idle, is_up};

#[tactic(auto, unfolding(rules::specs::Endpoints::channel_right))]
fn channel_right(state: State, channel: Channel) -> bool
    ensures { result ≡ channel_right state channel }
{
    match state {
        State::Idle | State::Configured => is_absent(channel),
        State::Open => !is_absent(channel),
        State::Streaming | State::Closing | State::Aborting => is_up(channel),
    }
}

// Whether a stored record could have these octets for its delay.
fn delay_octets_right(mark: u8, high: u8, low: u8) -> bool
    ensures { result ≡ (eqb mark 1 || (eqb mark 0 && eqb high 0 && eqb low 0)) }
{
    mark == 1 || (mark == 0 && high == 0 && low == 0)
}

// Whether a stored record could have these octets in its head where they have a use.
#[tactic(auto, unfolding(crate::specs::Legal::used_right))]
fn used_right(slot: Slot<'_>) -> bool
    ensures { result ≡ used_right slot.entry.octets.now }
{
    let octets = slot.octets;
    octets[STATE] <= 5
        && octets[CHANNEL] <= 2
        && delay_octets_right(octets[DELAY_MARK], octets[DELAY_HIGH], octets[DELAY_LOW])
        && octets[CONFIG_LENGTH] as usize <= CONFIG
}

// Whether a stored record could have these octets.
#[tactic(auto, unfolding(rules::specs::Saved::record_right, crate::specs::Legal::used_right, octets::specs::Patch::part))]
fn octets_right(slot: Slot<'_>) -> bool
    ensures { result ≡ record_right slot.entry.octets.now }
{
    used_right(slot) && alone(slot.octets, UNUSED, 0)
}

// How many channels a record awaits whose octet for the channel this is.
#[tactic(auto, unfolding(crate::specs::Legal::awaits_in, rules::specs::Endpoints::is_awaited))]
fn awaits(channel: u8) -> usize
    ensures { result ≡ awaits_in channel }
{
    usize::from(channel == 1)
}

// Whether a record's head is that of an idle endpoint, as most are.
#[tactic(auto, using(crate::proofs::IdleRecord::by_halves))]
fn idles(seid: OurSeid, slot: Slot<'_>) -> bool
    ensures { result ≡ idles_in seid slot.entry.octets.now }
{
    alone(slot.octets, SEID, seid.0) && alone(slot.octets, UNUSED, 0)
}

// One record against its entry, by its head.
#[tactic(auto, using(crate::proofs::EachRecord::one_record))]
fn record_legal(entry: Entry<'_>, slot: Slot<'_>) -> bool
    requires { TransportFirst entry.list.now }
    ensures { result
        ≡ record_legal (record { seid = entry.entry.seid; kind = entry.entry.kind; caps = entry.entry.list.now })
        slot.entry.octets.now }
{
    if !octets_right(slot) {
        return false;
    }
    let h = slot.head();
    h.seid == entry.seid
        && channel_right(h.state, h.channel)
        && if is_idle(h.state) {
            keeps_nothing(h.far, slot.config_length(), h.delay)
        } else {
            let offer = Offer { list: entry.list };
            keeps_settings(offer, entry.kind, h.far, slot.config(), h.delay)
        }
}

// How many channels a legal record awaits: an idle endpoint, none.
#[tactic(auto, using(crate::proofs::IdleRecord::idle_record), unfolding(crate::specs::Legal::awaited_in))]
fn awaited_by(entry: Entry<'_>, slot: Slot<'_>) -> Option<usize>
    requires { TransportFirst entry.list.now }
    ensures { result
        ≡ awaited_in (record { seid = entry.entry.seid; kind = entry.entry.kind; caps = entry.entry.list.now })
        slot.entry.octets.now }
{
    if idles(entry.seid, slot) {
        return Some(0);
    }
    record_legal(entry, slot).then_some(awaits(slot.octets[CHANNEL]))
}

// Every record against its entry, and at most one channel awaited.
pub fn records_legal(book: RightBook<'_>, records: &[u8]) -> bool
    requires { length (book_of book.octets.now) * record_room ≤ length records.now }
    ensures { result ≡ records_legal (book_of book.entry.octets.now) (length (book_of book.entry.octets.now)) 0 records.now }
{
    let mut at = 6;
    let mut awaited = 0;
    for index in 0..book.count() {
        let entry = book.entry(at);
        let slot = Slot::at(records, index);
        let Some(more) = awaited_by(entry, slot) else {
            return false;
        };
        awaited += more;
        at = entry.from + entry.list.len();
    }
    awaited <= 1
}
