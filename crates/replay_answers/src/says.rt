// How octets and names are written. A line is printed by one call, so that who types a script sees each answer before the next
// line.
ghost use Rattle.std.specs.Prelude.{◌<◌};

use replay_hexes::spell;
use replay_script::names::{CHANNELS, STATES};
use std::{fmt, str};

// So many octets are laid out in an array and then written at once, because each piece that is written costs.
const RUN: usize = 32;

// A digit of a value below 16, in capitals.
#[tactic(auto, unfolding(replay_hexes::specs::Hexes::spelled))]
fn digit(value: u8) -> u8
    ensures { result < 128 }
{
    spell(value)
}

// The first octets, at most a run: two digits in capitals each, with nothing between them. The text lies in the area.
#[tactic(auto, using(crate::proofs::Texts::text_front))]
fn lay_joined<'a>(octets: &[u8], area: &'a mut [u8; 64]) -> &'a str {
    let count = octets.len().min(RUN);
    *area = [b'0'; 64];
    for k in 0..count {
        area[2 * k] = digit(octets[k] / 16);
        area[2 * k + 1] = digit(octets[k] % 16);
    }
    let Ok(text) = str::from_utf8(&area[..2 * count]) else {
        unreachable!();
    };
    text
}

// The same with a blank before each.
#[tactic(auto, using(crate::proofs::Texts::text_front))]
fn lay_parted<'a>(octets: &[u8], area: &'a mut [u8; 96]) -> &'a str {
    let count = octets.len().min(RUN);
    *area = [b' '; 96];
    for k in 0..count {
        area[3 * k + 1] = digit(octets[k] / 16);
        area[3 * k + 2] = digit(octets[k] % 16);
    }
    let Ok(text) = str::from_utf8(&area[..3 * count]) else {
        unreachable!();
    };
    text
}

// Octets, with nothing between them.
#[derive(Clone, Copy)]
pub struct Joined<'a>(pub &'a [u8]);

impl fmt::Display for Joined<'_> {
    fn fmt<W: fmt::Write>(&self, f: &mut fmt::Formatter<W>) -> fmt::Result {
        let mut area = [0; 64];
        for run in self.0.chunks(RUN) {
            f.write_str(lay_joined(run, &mut area))?;
        }
        Ok(())
    }
}

// Octets, with a blank before each.
#[derive(Clone, Copy)]
pub struct Parted<'a>(pub &'a [u8]);

impl fmt::Display for Parted<'_> {
    fn fmt<W: fmt::Write>(&self, f: &mut fmt::Formatter<W>) -> fmt::Result {
        let mut area = [0; 96];
        for run in self.0.chunks(RUN) {
            f.write_str(lay_parted(run, &mut area))?;
        }
        Ok(())
    }
}

// The name that a table has for an octet: what stands before the colon in its line.
fn name(table: &[u8], octet: u8) -> &[u8] {
    let end = [b':', octet];
    table
        .split(|x| *x == b'\n')
        .find_map(|line| line.strip_suffix(&end))
        .unwrap_or(&[])
}

fn write_name<W: fmt::Write>(f: &mut fmt::Formatter<W>, table: &[u8], octet: u8) -> fmt::Result {
    for letter in name(table, octet) {
        f.write_char(char::from(*letter))?;
    }
    Ok(())
}

// A state, and a channel, by their octets in a saved record.
#[derive(Clone, Copy, PartialEq, Eq)]
pub struct StateName(pub u8);

impl fmt::Display for StateName {
    fn fmt<W: fmt::Write>(&self, f: &mut fmt::Formatter<W>) -> fmt::Result {
        write_name(f, &STATES, self.0)
    }
}

#[derive(Clone, Copy, PartialEq, Eq)]
pub struct ChannelName(pub u8);

impl fmt::Display for ChannelName {
    fn fmt<W: fmt::Write>(&self, f: &mut fmt::Formatter<W>) -> fmt::Result {
        write_name(f, &CHANNELS, self.0)
    }
}
