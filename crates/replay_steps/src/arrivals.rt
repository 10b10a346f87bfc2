// packet: what comes from the far end.
use replay_answers::records::{Gathering, Saved};
use replay_answers::says::Parted;
use replay_answers::session::Session;
use replay_silences::{packet_type, silent};
use replay_words::changes;
use replay_words::notes::{Asked, refused};
use replay_words::outcomes::Outcome;
use rules::{Header, Told};
use std::io;

// What became of a packet: what was saved before it and is after it, what was told of it, and the reply's payload.
#[derive(Clone, Copy)]
pub struct Arrival<'a> {
    pub packet: &'a [u8],
    pub before: &'a Saved,
    pub after: &'a Saved,
    pub told: Told,
    pub reply: &'a [u8],
}

// A line for each packet of a reply.
fn say_reply(rt: &impl Print, size: usize, told: Told, payload: &[u8]) -> io::Result<()> {
    let mut area = [0u8; 672];
    let header = Header {
        label: told.label,
        mtype: told.mtype,
        signal: told.signal,
    };
    for i in 0..bridge::packets(size, payload.len()) {
        let piece = bridge::cut(size, header, payload, i, &mut area);
        println!(rt; ">{}", Parted(area.get(..piece.length).unwrap_or(&[])))?;
    }
    Ok(())
}

// The answer to a packet; `reply` is the reply's payload.
pub fn say_told(rt: &impl Print, size: usize, told: Told, reply: &[u8]) -> io::Result<()> {
    match told {
        Told {
            number: 0,
            mtype: 0,
            ..
        } => println!(rt; "silent"),
        Told { number: 0, .. } => say_reply(rt, size, told, reply),
        Told { number, .. } => println!(rt; "refused {number}"),
    }
}

// The payload of a command, which was gathered before the packet and is carried by it: a packet that is a whole message carries
// all of it, behind two octets, and the last one of several carries a part, behind one.
fn payload<'a>(packet: &'a [u8], before: &'a Saved) -> (&'a [u8], &'a [u8]) {
    match packet {
        [first, _signal, payload @ ..] if packet_type(*first) == 0 => (&[], payload),
        [_first, part @ ..] => (
            Gathering::read(before).map_or(&[], |message| message.payload),
            part,
        ),
        [] => (&[], &[]),
    }
}

// What a packet's answer means, if that is asked for.
pub fn explain(rt: &impl Print, session: &Session, arrival: Arrival<'_>) -> io::Result<()> {
    let Arrival {
        packet,
        before,
        after,
        told,
        reply,
    } = arrival;
    if !session.explains {
        return Ok(());
    }
    if told.number != 0 {
        return refused(rt, session, told.number, Asked::EndpointOfSeid);
    }
    if told.mtype == 0 {
        return silent(
            rt,
            session.size,
            packet,
            Gathering::read(before),
            Gathering::read(after),
        );
    }
    let (first, last) = payload(packet, before);
    let outcome = Outcome {
        mtype: told.mtype,
        signal: told.signal,
        before: first,
        last,
        reply,
    };
    println!(rt; "# {outcome}")?;
    changes::all(rt, before, after, session.records)?;
    Ok(())
}

// packet HEX..
pub fn packet(rt: &impl Print, session: &mut Session, packet: &[u8]) -> io::Result<()> {
    let mut room = [0u8; 65536];
    let before = session.saved;
    let area = &mut room[..session.area.min(65536)];
    let told = bridge::packet(
        session.book.as_slice(),
        session.size,
        &mut session.saved,
        packet,
        area,
    );
    let reply = room.get(..told.length).unwrap_or(&[]);
    say_told(rt, session.size, told, reply)?;
    let session = &*session;
    let after = &session.saved;
    explain(
        rt,
        session,
        Arrival {
            packet,
            before: &before,
            after,
            told,
            reply,
        },
    )
}
