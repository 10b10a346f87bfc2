// The public calls for a host in C: `bridge`'s, over slices and numbers. A slice crosses as two parameters, where it begins and
// how long it is; include/bawbeenor.h says the same in C. A refusal crosses as its number, 0 where there is none. Each answers as
// the call of `bridge` with the same numbers, on every input.
#![tactic(auto)]

mod events;

ghost use Rattle.std.specs.Prelude.{◌≡◌};
ghost use Rattle.rules.specs.Host.{check_call, delay_call, packets_call};
ghost use Rattle.rules.specs.Calls.{Freshens, Takes, TakesAll, Cuts};
ghost use Rattle.host.specs.Exports.{ours, HappensBy, Stands, status_by};

use crate::events::event_of;
use bridge_questions::locate;
use rules::layout::{CONFIG_LENGTH, HEAD, RECORD, RECORDS};
use rules::refusals::number;
use rules::{Burst, Header, Heard, OurSeid, Piece, Told};
use saved::records::{channel_octet, state_octet};

// Where an endpoint's settings stand: a number, the area (0 none, 1 the book, 2 the saved area), the place in it and the length.
// No slice crosses to C in a struct, and no enum of ours is a number there.
#[repr(C)]
#[derive(Drop)]
pub struct Span {
    pub number: u8,
    pub area: u8,
    pub offset: usize,
    pub length: usize,
}

// How an endpoint stands: a number, its state (0 idle, 1 configured, 2 open, 3 streaming, 4 closing, 5 aborting), its channel
// (0 none, 1 awaited, 2 up) and the far SEID (0 none).
#[repr(C)]
#[derive(Drop)]
pub struct Standing {
    pub number: u8,
    pub state: u8,
    pub channel: u8,
    pub far: u8,
}

#[unsafe(no_mangle)]
pub extern "C" fn bawbeenor_check(book: &[u8]) -> u8
    ensures { result ≡ check_call book.now }
{
    number(bridge::check(book))
}

#[unsafe(no_mangle)]
pub extern "C" fn bawbeenor_fresh(book: &[u8], saved: &mut [u8]) -> u8
    ensures { Freshens book.now saved.old result saved.new }
{
    number(bridge::fresh(book, saved))
}

#[unsafe(no_mangle)]
pub extern "C" fn bawbeenor_packet(
    book: &[u8],
    size: usize,
    saved: &mut [u8],
    packet: &[u8],
    reply: &mut [u8],
) -> Told
    ensures { Takes book.now size saved.old packet.now reply.old
        result saved.new reply.new }
{
    bridge::packet(book, size, saved, packet, reply)
}

// What is told comes back through memory, as C returns a struct of this size.
#[unsafe(no_mangle)]
pub extern "C" fn bawbeenor_burst(
    book: &[u8],
    size: usize,
    saved: &mut [u8],
    octets: &[u8],
    lengths: &[usize],
    reply: &mut [u8],
) -> Burst
    ensures { TakesAll book.now size saved.old octets.now lengths.now
        reply.old result saved.new reply.new }
{
    bridge::burst(book, size, saved, octets, lengths, reply)
}

// An event by its number: 0 the awaited channel is up, 1 the channel of `seid` is down, 2 the link is lost.
#[unsafe(no_mangle)]
pub extern "C" fn bawbeenor_event(book: &[u8], saved: &mut [u8], which: u8, seid: u8) -> u8
    ensures { HappensBy book.now saved.old which seid result saved.new }
{
    number(bridge::event(book, saved, event_of(which, seid)))
}

fn nowhere(number: u8) -> Span
    ensures { result ≡ record { number = number; area = 0; offset = 0; length = 0 } }
{
    Span {
        number,
        area: 0,
        offset: 0,
        length: 0,
    }
}

#[unsafe(no_mangle)]
pub extern "C" fn bawbeenor_settings(book: &[u8], saved: &[u8], seid: u8) -> Span
    ensures { Stands book.now saved.now seid result }
{
    let place = match locate(book, saved, OurSeid(seid)) {
        Ok(place) => place,
        Err(refusal) => return nowhere(u8::from(refusal)),
    };
    let head = RECORDS + place.index * RECORD;
    let length = saved[head + CONFIG_LENGTH] as usize;
    if length == 0 {
        Span {
            number: 0,
            area: 1,
            offset: place.from,
            length: place.size,
        }
    } else {
        Span {
            number: 0,
            area: 2,
            offset: head + HEAD,
            length,
        }
    }
}

#[unsafe(no_mangle)]
pub extern "C" fn bawbeenor_delay(book: &[u8], saved: &[u8], seid: u8) -> Heard
    ensures { result ≡ delay_call book.now saved.now (ours seid) }
{
    bridge::delay(book, saved, OurSeid(seid))
}

#[unsafe(no_mangle)]
#[tactic(auto, unfolding(crate::specs::Exports::status_by))]
pub extern "C" fn bawbeenor_status(book: &[u8], saved: &[u8], seid: u8) -> Standing
    ensures { result ≡ status_by book.now saved.now seid }
{
    let told = bridge::status(book, saved, OurSeid(seid));
    Standing {
        number: told.number,
        state: state_octet(told.state),
        channel: channel_octet(told.channel),
        far: told.far.0,
    }
}

#[unsafe(no_mangle)]
pub extern "C" fn bawbeenor_packets(size: usize, length: usize) -> usize
    ensures { result ≡ packets_call size length }
{
    bridge::packets(size, length)
}

#[unsafe(no_mangle)]
pub extern "C" fn bawbeenor_cut(
    size: usize,
    label: u8,
    mtype: u8,
    signal: u8,
    payload: &[u8],
    index: usize,
    area: &mut [u8],
) -> Piece
    ensures { Cuts size label mtype signal payload.now index area.old result area.new }
{
    let header = Header {
        label,
        mtype,
        signal,
    };
    bridge::cut(size, header, payload, index, area)
}
