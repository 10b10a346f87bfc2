// The names of steps, states and channels.
ghost use Rattle.std.specs.Prelude.{◌≡◌};
ghost use Rattle.replay_script.specs.Names.{step_of, state_of, channel_of};
ghost use Rattle.replay_script.specs.Numbers.{or_none};

use crate::tables::value;

// The steps. Under a step's name stand its letter, by which `replay_reading` makes the step; `+` where it needs a book, `-` where
// not; then letters of the same crate: one for what stands at its end, and one for each word before that. A name may have several
// words.
pub const STEPS: [u8; 226] = *b"book:b-*\n\
    rebook:r+*\n\
    size:s-.n\n\
    area:a-.n\n\
    packet:p+*\n\
    burst:m+/\n\
    up:u+.\n\
    down:d+.o\n\
    lost:l+.\n\
    settings:q+.o\n\
    delay:t+.o\n\
    status:j+.o\n\
    states:e+.\n\
    record:w+koscod\n\
    count:i+.o\n\
    gathering none:n+.\n\
    gathering:g+pooooo\n\
    cut:c-*nooonn\n\
    explain:x-.\n";

// The states and the channels, each with the octet that stands for it in a saved record.
pub const STATES: [u8; 60] = *b"idle:\x00\n\
    configured:\x01\n\
    open:\x02\n\
    streaming:\x03\n\
    closing:\x04\n\
    aborting:\x05\n";

pub const CHANNELS: [u8; 22] = *b"none:\x00\n\
    awaited:\x01\n\
    up:\x02\n";

// The letter of a step, if a step has the name.
pub fn step(name: &[u8]) -> Option<u8>
    ensures { or_none result ≡ step_of name.now }
{
    value(&STEPS, name)
}

// The octet of a state, if the word names one.
pub fn state(word: &[u8]) -> Option<u8>
    ensures { or_none result ≡ state_of word.now }
{
    value(&STATES, word)
}

// The octet of a channel, if the word names one.
pub fn channel(word: &[u8]) -> Option<u8>
    ensures { or_none result ≡ channel_of word.now }
{
    value(&CHANNELS, word)
}
