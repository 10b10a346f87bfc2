// What a packet or an event has changed: the saved records before it and after it, compared.
use replay_answers::records::{Record, Saved, slots};
use std::io;

// One record: whether anything of it has changed.
fn changed(rt: &impl Print, before: Record<'_>, after: Record<'_>) -> io::Result<bool> {
    let seid = after.seid;
    let state = before.state != after.state;
    if state {
        println!(rt; "# SEID {seid}: {} -> {}", before.state, after.state)?;
    }
    let channel = before.channel != after.channel;
    if channel {
        println!(rt;
            "# SEID {seid}: channel {} -> channel {}",
            before.channel, after.channel
        )?;
    }
    let delay = before.delay != after.delay;
    if delay {
        match after.delay {
            None => println!(rt; "# SEID {seid}: its reported delay is forgotten")?,
            Some(tenths) => println!(rt;
                "# SEID {seid}: reported delay {tenths} tenths of a millisecond"
            )?,
        }
    }
    let config = before.config.len() != after.config.len();
    if config {
        match after.config.len() {
            0 => println!(rt; "# SEID {seid}: its configuration is forgotten")?,
            n => println!(rt; "# SEID {seid}: configuration of {n} octets")?,
        }
    }
    Ok(state || channel || delay || config)
}

// Every record: whether any has changed.
pub fn all(rt: &impl Print, before: &Saved, after: &Saved, records: usize) -> io::Result<bool> {
    let mut any = false;
    for (before, after) in slots(before).zip(slots(after)).take(records) {
        if let (Some(before), Some(after)) = (Record::read(before), Record::read(after)) {
            any |= changed(rt, before, after)?;
        }
    }
    Ok(any)
}
