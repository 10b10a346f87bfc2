// The public calls. None asks anything of its caller: every book, size, saved connection, packet and area gets an answer, and a
// refusal leaves every octet of every lent area. What a host in C is told as a struct (`Told`, `Burst`, `Heard`, `Piece`,
// and `Standing` by `status_call`) is a struct here too: it has the number of the refusal in it, 0 where the call was not
// refused.
#![tactic(auto)]

ghost use Rattle.std.specs.Prelude.{◌≡◌};
ghost use Rattle.rules.specs.Host.{check_call, settings_call, delay_call, status_call, packets_call};
ghost use Rattle.rules.specs.Calls.{Freshens, Takes, TakesAll, Happens, Cuts};
ghost use Rattle.rules.specs.Refusals.{number_told};

use bridge_refusals::{burst_refusal, packet_refusal};
use rules::refusals::Refusal;
use rules::{Burst, Event, Header, Heard, OurSeid, Piece, Standing, Told};

// Whether a book is right.
#[tactic(auto, unfolding(rules::specs::Host::check_call), using(rules::proofs::Refusing::handed_on))]
pub fn check(book: &[u8]) -> Result<(), Refusal>
    ensures { number_told result ≡ check_call book.now }
{
    book_check::check(book)?;
    Ok(())
}

// Begins: `saved` holds a fresh connection over the book, every endpoint idle and nothing gathered. An area too short is refused
// as a saved connection is.
pub fn fresh(book: &[u8], saved: &mut [u8]) -> Result<(), Refusal>
    ensures { Freshens book.now saved.old (number_told result) saved.new }
{
    bridge_link::fresh(book, saved)
}

// Takes a packet from the far end. The reply's payload is at the front of `reply`, of which 64 octets are asked for.
pub fn packet(book: &[u8], size: usize, saved: &mut [u8], packet: &[u8], reply: &mut [u8]) -> Told
    ensures { Takes book.now size saved.old packet.now reply.old
        result saved.new reply.new }
{
    match packet_refusal(book, size, saved, reply) {
        Ok(right) => bridge_packet::take(right, size, saved, packet, reply),
        Err(refusal) => bridge_packet::nothing(u8::from(refusal)),
    }
}

// Takes up to 16 packets, which lie one behind the other in `octets`; `lengths` has the length of each. The reply's payload of
// each is at the front of its own 64 octets of `reply`, of which 1,024 octets are asked for.
pub fn burst(
    book: &[u8],
    size: usize,
    saved: &mut [u8],
    octets: &[u8],
    lengths: &[usize],
    reply: &mut [u8],
) -> Burst
    ensures { TakesAll book.now size saved.old octets.now lengths.now
        reply.old result saved.new reply.new }
{
    match burst_refusal(book, size, saved, lengths, reply) {
        Ok(right) => bridge_burst::take_all(right, size, saved, octets, lengths, reply),
        Err(refusal) => bridge_burst::none_told(u8::from(refusal)),
    }
}

// Takes a link event: the awaited channel is up, the channel of one of our SEIDs is down, the link is lost.
pub fn event(book: &[u8], saved: &mut [u8], event: Event) -> Result<(), Refusal>
    ensures { Happens book.now saved.old event (number_told result) saved.new }
{
    bridge_link::event(book, saved, event)
}

// The settings of an endpoint where they stand: its configuration in the saved area, or what it offers in the book. Empty where
// the question is refused.
pub fn settings<'a>(book: &'a [u8], saved: &'a [u8], seid: OurSeid) -> &'a [u8]
    ensures { result.now ≡ (settings_call book.now saved.now seid).part }
{
    bridge_questions::settings(book, saved, seid)
}

// Why that question is refused.
pub fn settings_told(book: &[u8], saved: &[u8], seid: OurSeid) -> Result<(), Refusal>
    ensures { number_told result ≡ (settings_call book.now saved.now seid).number }
{
    bridge_questions::settings_told(book, saved, seid)
}

// The delay that the far end reported for an endpoint.
pub fn delay(book: &[u8], saved: &[u8], seid: OurSeid) -> Heard
    ensures { result ≡ delay_call book.now saved.now seid }
{
    bridge_questions::delay(book, saved, seid)
}

// How an endpoint stands: its state, its channel and the far SEID.
pub fn status(book: &[u8], saved: &[u8], seid: OurSeid) -> Standing
    ensures { result ≡ status_call book.now saved.now seid }
{
    bridge_questions::status(book, saved, seid)
}

// How many packets a payload of this length takes, 0 where the size or the length is refused: the number that C is told.
pub fn packets(size: usize, length: usize) -> usize
    ensures { result ≡ packets_call size length }
{
    packets_cut::packets(size, length)
}

// Writes packet number `index` of a message, counted from 0, at the front of `area`.
pub fn cut(size: usize, header: Header, payload: &[u8], index: usize, area: &mut [u8]) -> Piece
    ensures { Cuts size header.label header.mtype header.signal payload.now index area.old result area.new }
{
    packets_cut::cut(size, header, payload, index, area)
}
