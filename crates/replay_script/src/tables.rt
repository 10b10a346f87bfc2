// A table is text in one piece: lines, each a name, a colon and what is said under that name.
ghost use Rattle.std.specs.Prelude.{◌≡◌, true};
ghost use Rattle.replay_script.specs.Numbers.{or_none};
ghost use Rattle.replay_script.specs.Tables.{named_of, word_said, value_of};

use crate::lines::{part, rest};

// The place of the first line of a name; the length where there is none.
#[tactic(auto, unfolding(crate::specs::Tables::named_of, crate::specs::Lines::part_at))]
fn named(table: &[u8], name: &[u8]) -> usize
    ensures { result ≡ named_of name.now true table.now }
{
    let mut starts = true;
    for (i, octet) in table.iter().enumerate() {
        if starts && octets::same(part(table, i, b':'), name) {
            return i;
        }
        starts = *octet == b'\n';
    }
    table.len()
}

// What is said under a name; nothing where the table does not have it.
#[tactic(auto, unfolding(crate::specs::Tables::word_said))]
pub fn said<'a>(table: &'a [u8], name: &[u8]) -> &'a [u8]
    ensures { result.now ≡ word_said name.now table.now }
{
    let line = part(table, named(table, name), b'\n');
    rest(line, name.len() + 1)
}

// The octet that is said under a name, if the table has it.
#[tactic(auto, unfolding(crate::specs::Tables::value_of, crate::specs::Tables::front_of))]
pub fn value(table: &[u8], name: &[u8]) -> Option<u8>
    ensures { or_none result ≡ value_of name.now table.now }
{
    said(table, name).first().copied()
}
