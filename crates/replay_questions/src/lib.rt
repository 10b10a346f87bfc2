// settings, delay, status, states and cut: what the host may ask, what is saved, and one packet of a message.
#![tactic(auto)]

use replay_answers::records::{Gathering, Record, slots};
use replay_answers::says::{ChannelName, Parted, StateName};
use replay_answers::session::Session;
use replay_reading::steps::Cut;
use replay_words::notes::{Done, note};
use rules::refusals::number;
use rules::{OurSeid, Piece};
use saved::records::{channel_octet, state_octet};
use std::io;

// What settings are: the configuration of an endpoint that has one, or what it offers.
fn shown(session: &Session, seid: OurSeid) -> Done {
    let slot = slots(&session.saved).find(|slot| slot.first() == Some(&seid.0));
    match slot.and_then(Record::read) {
        Some(record) if !record.config.is_empty() => Done::Configured,
        _ => Done::Offered,
    }
}

// settings SEID
pub fn settings(rt: &impl Print, session: &Session, seid: OurSeid) -> io::Result<()> {
    let book = session.book.as_slice();
    let number = number(bridge::settings_told(book, &session.saved, seid));
    let part = bridge::settings(book, &session.saved, seid);
    println!(rt; "settings {number}{}", Parted(part))?;
    note(rt, session, number, shown(session, seid))
}

// delay SEID
pub fn delay(rt: &impl Print, session: &Session, seid: OurSeid) -> io::Result<()> {
    let heard = bridge::delay(session.book.as_slice(), &session.saved, seid);
    let number = heard.number;
    let tenths = heard.tenths;
    let (word, done) = if heard.reported {
        ("reported", Done::Reported { tenths })
    } else {
        ("unreported", Done::Unreported)
    };
    println!(rt; "delay {number} {word} {tenths}")?;
    note(rt, session, number, done)
}

// status SEID
pub fn status(rt: &impl Print, session: &Session, seid: OurSeid) -> io::Result<()> {
    let told = bridge::status(session.book.as_slice(), &session.saved, seid);
    let number = told.number;
    let state = StateName(state_octet(told.state));
    let channel = ChannelName(channel_octet(told.channel));
    let far = told.far.0;
    println!(rt; "status {number} {state} {channel} {far}")?;
    note(rt, session, number, Done::Stands)
}

// states
pub fn states(rt: &impl Print, session: &Session) -> io::Result<()> {
    for slot in slots(&session.saved).take(session.records) {
        if let Some(record) = Record::read(slot) {
            println!(rt; "{record}")?;
        }
    }
    if session.explains {
        replay_silences::say_gathering(rt, Gathering::read(&session.saved))?;
    }
    Ok(())
}

// cut SIZE LABEL TYPE SIGNAL AREA N HEX..
pub fn cut(rt: &impl Print, session: &Session, cut: Cut<'_>) -> io::Result<()> {
    let mut room = [0u8; 65536];
    let area = &mut room[..usize::from(cut.area)];
    let size = usize::from(cut.size);
    let index = usize::from(cut.index);
    let piece = bridge::cut(size, cut.header, cut.payload, index, area);
    let Piece { number, length } = piece;
    println!(rt; "cut {number}{}", Parted(room.get(..length).unwrap_or(&[])))?;
    let packets = bridge::packets(size, cut.payload.len());
    note(rt, session, number, Done::PacketOf { index, packets })
}
