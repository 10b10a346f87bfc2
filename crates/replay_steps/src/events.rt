// up, down and lost: what the host tells of the link.
use replay_answers::session::Session;
use replay_words::changes;
use replay_words::notes::{Asked, refused};
use rules::Event;
use rules::refusals::number;
use std::io;

// What number 10 says of an event.
fn asked(event: Event) -> Asked {
    match event {
        Event::Up => Asked::AwaitedChannel,
        Event::Down(_) | Event::Lost => Asked::ChannelOfSeid,
    }
}

pub fn happen(rt: &impl Print, session: &mut Session, event: Event) -> io::Result<()> {
    let before = session.saved;
    let done = bridge::event(session.book.as_slice(), &mut session.saved, event);
    println!(rt; "event {}", number(done))?;
    if let Err(refusal) = done {
        return refused(rt, session, u8::from(refusal), asked(event));
    }
    if session.explains && !changes::all(rt, &before, &session.saved, session.records)? {
        println!(rt; "# no endpoint has changed")?;
    }
    Ok(())
}
