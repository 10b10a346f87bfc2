// book and rebook.
use replay_answers::session::Session;
use replay_words::notes::{Done, note};
use rules::refusals::number;
use std::io;

// The count of endpoints that a book says it has.
fn entries(book: &[u8]) -> usize {
    book.get(5).map_or(0, |count| usize::from(*count))
}

// book HEX..
pub fn book(rt: &impl Print, session: &mut Session, given: &[u8]) -> io::Result<()> {
    let done = bridge::fresh(given, &mut session.saved);
    println!(rt; "book {}", number(done))?;
    note(rt, session, number(done), Done::Fresh)?;
    if done.is_ok() {
        session.adopt(given, entries(given));
    }
    Ok(())
}

// rebook HEX..
pub fn rebook(rt: &impl Print, session: &mut Session, given: &[u8]) -> io::Result<()> {
    let done = bridge::check(given);
    println!(rt; "book {}", number(done))?;
    note(rt, session, number(done), Done::Kept)?;
    if done.is_ok() {
        session.adopt(given, session.records);
    }
    Ok(())
}
