// Runs a script of packets and events against the bridge, line by line, and writes the bridge's answers. Every line that
// isn't empty or a comment gets its answer, or `line K not understood`; nothing ends the run but the end of the input, or an error
// of reading or writing.
#![tactic(auto)]

mod failure;

use crate::failure::Failure;
use replay_answers::records;
use replay_answers::session::Session;
use replay_input::{Input, Line};
use replay_reading::odd::Odd;
use replay_reading::steps::Step;
use replay_reading::{Room, read};
use replay_script::lines;
use replay_steps::{arrivals, books, events};
use rules::Event;
use std::io;

// What a step does and answers.
fn take(rt: &impl Print, session: &mut Session, step: Step<'_>) -> Result<(), Failure> {
    match step {
        Step::Book(given) => books::book(rt, session, given)?,
        Step::Rebook(given) => books::rebook(rt, session, given)?,
        Step::Size(n) => session.size = usize::from(n),
        Step::Area(n) => session.area = usize::from(n),
        Step::Packet(packet) => arrivals::packet(rt, session, packet)?,
        Step::Burst { octets, lengths } => replay_bursts::burst(rt, session, octets, lengths)?,
        Step::Up => events::happen(rt, session, Event::Up)?,
        Step::Down(seid) => events::happen(rt, session, Event::Down(seid))?,
        Step::Lost => events::happen(rt, session, Event::Lost)?,
        Step::Settings(seid) => replay_questions::settings(rt, session, seid)?,
        Step::Delay(seid) => replay_questions::delay(rt, session, seid)?,
        Step::Status(seid) => replay_questions::status(rt, session, seid)?,
        Step::States => replay_questions::states(rt, session)?,
        Step::Record(record) => record
            .write(&mut session.saved, session.records)
            .ok_or(Odd::Words)?,
        Step::Count(n) => records::count(&mut session.saved, n),
        Step::NoGathering => records::end_gathering(&mut session.saved),
        Step::Gathering(gathering) => gathering.write(&mut session.saved),
        Step::Cut(cut) => replay_questions::cut(rt, session, cut)?,
        Step::Explain => session.explains = true,
    }
    Ok(())
}

// A step: what it does and answers. The room that its octets have, and the areas of the steps, take pages of the stack that are
// written when it begins, so it isn't to be compiled into `serve`: a line without a step costs none of that.
#[inline(never)]
fn act(rt: &impl Print, session: &mut Session, text: &[u8]) -> Result<(), Failure> {
    let mut room = Room::new();
    let step = read(text, session.is_booked(), &mut room)?;
    take(rt, session, step)
}

// A step, or `None` for a line that was too long.
fn answer(rt: &impl Print, session: &mut Session, text: Option<&[u8]>) -> Result<(), Failure> {
    act(rt, session, text.ok_or(Odd::Long)?)
}

// Line k: its answer, or that it was not understood. A line without a step gets no answer; there may be many of them, so they are
// told apart here, before there is room for a `Failure`.
fn serve(rt: &impl Print, session: &mut Session, k: usize, line: &Line) -> io::Result<()> {
    let text = line.octets().map(lines::step);
    if matches!(text, Some([])) {
        return Ok(());
    }
    match answer(rt, session, text) {
        Ok(()) => Ok(()),
        Err(Failure::Output(error)) => Err(error),
        Err(Failure::Line(why)) => {
            println!(rt; "line {k} not understood")?;
            if session.explains {
                println!(rt; "# {why}")?;
            }
            Ok(())
        }
    }
}

// All of the input, in turns as those of a line are (`Input::next`).
fn main(rt: HostRuntime) -> io::Result<()> {
    let mut session = Session::new();
    let mut input = Input::new(rt.stdin());
    let mut line = Line::new();
    for k in 1..usize::MAX {
        if !input.next(&mut line)? {
            break;
        }
        serve(&rt, &mut session, k, &line)?;
    }
    Ok(())
}
