// The questions about one endpoint. Each is refused as every call is, and does not apply where the book has no such SEID.
#![tactic(auto)]

ghost use Rattle.std.specs.Prelude.{◌≡◌, IfOk, Some};
ghost use Rattle.rules.specs.Host.{settings_call, heard as hearing, delay_call, standing as standingBy, status_call};
ghost use Rattle.rules.specs.Refusals.{number_told};
ghost use Rattle.book.specs.Places.{place_in};
ghost use Rattle.bridge_questions.specs.Questions.{asked, Finds};

use book::places::Place;
use rules::refusals::Refusal;
use rules::{Head, Heard, OurSeid, Standing};
use saved::parts::records_of;
use saved::records::{config, get};
use saved_moves::idle;

// The place of the endpoint that a question is about, or why the question is refused.
pub fn locate(book: &[u8], saved: &[u8], seid: OurSeid) -> Result<Place, Refusal>
    ensures number { number_told result ≡ asked book.now saved.now seid }
    ensures place { IfOk result (λ place. place_in seid book.now ≡ Some place) }
{
    let right = bridge_refusals::refusal(book, saved)?;
    right.locate(seid).ok_or(Refusal::NotApplicable)
}

// The settings of an endpoint where they stand: its configuration in the saved area, or what it offers in the book. Empty where
// the question is refused.
pub fn settings<'a>(book: &'a [u8], saved: &'a [u8], seid: OurSeid) -> &'a [u8]
    ensures { result.now ≡ (settings_call book.now saved.now seid).part }
{
    let Ok(place) = locate(book, saved, seid) else {
        return &[];
    };
    let config = config(records_of(saved), place.index);
    if config.is_empty() {
        octets::part(book, place.from, place.size)
    } else {
        config
    }
}

// Why that question is refused.
#[tactic(auto, using(rules::proofs::Refusing::handed_on, crate::proofs::Asked::shown_number))]
pub fn settings_told(book: &[u8], saved: &[u8], seid: OurSeid) -> Result<(), Refusal>
    ensures { number_told result ≡ (settings_call book.now saved.now seid).number }
{
    locate(book, saved, seid)?;
    Ok(())
}

// The head of the endpoint's record.
fn ask(book: &[u8], saved: &[u8], seid: OurSeid) -> Result<Head, Refusal>
    ensures { Finds book.now saved.now seid result }
{
    let place = locate(book, saved, seid)?;
    Ok(get(records_of(saved), place.index))
}

// A delay as the host in C is told of it: the number, the mark and the tenths stand for a Result and an Option.
#[tactic(auto, unfolding(rules::specs::Host::heard))]
fn heard(number: u8, delay: Option<u16>) -> Heard
    ensures { result ≡ hearing number delay }
{
    Heard {
        number,
        reported: delay.is_some(),
        tenths: delay.unwrap_or(0),
    }
}

// How an endpoint stands, as `status_call` tells it: the number stands beside the rest, which is that of an idle endpoint where
// the question is refused.
#[tactic(auto, unfolding(rules::specs::Host::standing))]
fn standing(number: u8, head: Head) -> Standing
    ensures { result ≡ standingBy number head }
{
    Standing {
        number,
        state: head.state,
        channel: head.channel,
        far: head.far,
    }
}

// The delay that the far end reported for an endpoint.
pub fn delay(book: &[u8], saved: &[u8], seid: OurSeid) -> Heard
    ensures { result ≡ delay_call book.now saved.now seid }
{
    match ask(book, saved, seid) {
        Ok(head) => heard(0, head.delay),
        Err(refusal) => heard(u8::from(refusal), None),
    }
}

// How an endpoint stands: its state, its channel and the far SEID.
#[tactic(auto, unfolding(rules::specs::Host::nowhere))]
pub fn status(book: &[u8], saved: &[u8], seid: OurSeid) -> Standing
    ensures { result ≡ status_call book.now saved.now seid }
{
    match ask(book, saved, seid) {
        Ok(head) => standing(0, head),
        Err(refusal) => standing(u8::from(refusal), idle(OurSeid(0))),
    }
}
