// The step burst: packets that come at once. In a crate of its own for the time of the check.
#![tactic(auto)]

use replay_answers::records::Saved;
use replay_answers::session::Session;
use replay_steps::arrivals::{Arrival, explain, say_told};
use replay_words::notes::{Done, note};
use rules::Told;
use std::io;

// The room that the reply to each packet of a burst has.
const REPLY: usize = 64;

// What the answer to a packet of a burst means, if that is asked for. A burst comes to what its packets come to one by one, so
// the packet is taken once more, on a copy of what was saved before it: that shows what it alone has changed.
fn retrace(rt: &impl Print, session: &Session, copy: &mut Saved, packet: &[u8]) -> io::Result<()> {
    if !session.explains {
        return Ok(());
    }
    let before = *copy;
    let mut area = [0u8; REPLY];
    let told = bridge::packet(
        session.book.as_slice(),
        session.size,
        copy,
        packet,
        &mut area,
    );
    let reply = area.get(..told.length).unwrap_or(&[]);
    let after = &*copy;
    explain(
        rt,
        session,
        Arrival {
            packet,
            before: &before,
            after,
            told,
            reply,
        },
    )
}

// What is told of each packet; `copy` is what was saved before the burst.
fn say_each(
    rt: &impl Print,
    session: &Session,
    copy: &mut Saved,
    octets: &[u8],
    lengths: &[usize],
    told: &[Told],
    area: &[u8],
) -> io::Result<()> {
    let mut left = octets;
    for ((length, told), room) in lengths.iter().zip(told).zip(area.chunks_exact(REPLY)) {
        let (packet, behind) = left.split_at_checked(*length).unwrap_or((left, &[]));
        say_told(
            rt,
            session.size,
            *told,
            room.get(..told.length).unwrap_or(&[]),
        )?;
        retrace(rt, session, copy, packet)?;
        left = behind;
    }
    Ok(())
}

// burst / HEX.. / HEX..
pub fn burst(
    rt: &impl Print,
    session: &mut Session,
    octets: &[u8],
    lengths: &[usize],
) -> io::Result<()> {
    let mut room = [0u8; 65536];
    let mut copy = session.saved;
    let area = &mut room[..session.area.min(65536)];
    let book = session.book.as_slice();
    let burst = bridge::burst(
        book,
        session.size,
        &mut session.saved,
        octets,
        lengths,
        area,
    );
    let number = burst.number;
    println!(rt; "burst {number}")?;
    let packets = lengths.len();
    note(rt, session, number, Done::OneByOne { packets })?;
    if number == 0 {
        say_each(rt, session, &mut copy, octets, lengths, &burst.told, &room)?;
    }
    Ok(())
}
