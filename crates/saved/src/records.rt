// One endpoint's record in the saved area: its head travels by value, its configuration stays where it is. What is read of a
// record is read of a `Slot`; for what is written (`set`, `set_head`) no such type holds the room: a ghost field beside a `&mut`
// has no proof.
ghost use Rattle.std.specs.Prelude.{◌≡◌, ◌++◌, ◌+◌, ◌*◌, ◌≤◌, drop, get_or, length};
ghost use Rattle.rules.specs.Saved.{state_in, state_octet, channel_in, channel_octet, delay_in, pair_in};
ghost use Rattle.rules.specs.Saved.{record_room, head_room, config_room, config_length_place, head_in, head_octets, config_in};
ghost use Rattle.rules.specs.Saved.{record_at};
ghost use Rattle.octets.specs.Patch.{patch};
ghost use Rattle.saved.specs.Records.{config_size_at, config_at};

use rules::layout::{
    CHANNEL, CONFIG_LENGTH, DELAY_HIGH, DELAY_LOW, DELAY_MARK, FAR, HEAD, RECORD, SEID, STATE,
    UNUSED,
};
use rules::{Channel, FarSeid, Head, OurSeid, State};

// The state of an octet; any other octet is idle, so there is no `TryFrom`.
fn state_in(octet: u8) -> State
    ensures { result ≡ state_in octet }
{
    match octet {
        1 => State::Configured,
        2 => State::Open,
        3 => State::Streaming,
        4 => State::Closing,
        5 => State::Aborting,
        _ => State::Idle,
    }
}

pub fn state_octet(state: State) -> u8
    ensures { result ≡ state_octet state }
{
    state as u8
}

fn channel_in(octet: u8) -> Channel
    ensures { result ≡ channel_in octet }
{
    match octet {
        1 => Channel::Awaited,
        2 => Channel::Up,
        _ => Channel::Absent,
    }
}

pub fn channel_octet(channel: Channel) -> u8
    ensures { result ≡ channel_octet channel }
{
    channel as u8
}

fn delay_in(mark: u8, high: u8, low: u8) -> Option<u16>
    ensures { result ≡ delay_in mark (pair_in high low) }
{
    (mark != 0).then_some(u16::from_be_bytes([high, low]))
}

// The head that a record begins with.
#[tactic(auto, unfolding(rules::specs::Saved::head_in))]
pub fn load(slot: &[u8]) -> Head
    requires { head_room ≤ length slot.now }
    ensures { result ≡ head_in slot.now }
{
    Head {
        seid: OurSeid(slot[SEID]),
        state: state_in(slot[STATE]),
        channel: channel_in(slot[CHANNEL]),
        far: FarSeid(slot[FAR]),
        delay: delay_in(slot[DELAY_MARK], slot[DELAY_HIGH], slot[DELAY_LOW]),
    }
}

// One record, where it is read.
#[derive(Clone, Copy)]
pub struct Slot<'a> {
    pub octets: &'a [u8],
    ghost whole: { length octets.now ≡ record_room },
}

impl<'a> Slot<'a> {
    // Record i.
    #[tactic(auto, unfolding(octets::specs::Patch::part))]
    pub fn at(records: &'a [u8], i: usize) -> Slot<'a>
        requires { (i + 1) * record_room ≤ length records.now }
        ensures { result.octets.now ≡ record_at i records.now }
    {
        Slot {
            octets: octets::part(records, i * RECORD, RECORD),
        }
    }

    pub fn head(self) -> Head
        ensures { result ≡ head_in self.entry.octets.now }
    {
        load(self.octets)
    }

    // How long the configuration is, as the record tells it.
    pub fn config_length(self) -> u8
        ensures { result ≡ get_or self.entry.octets.now config_length_place 0 }
    {
        self.octets[CONFIG_LENGTH]
    }

    #[tactic(auto, unfolding(rules::specs::Saved::config_in, octets::specs::Patch::part))]
    pub fn config(self) -> &'a [u8]
        requires { get_or self.octets.now config_length_place 0 ≤ config_room }
        ensures { result.now ≡ config_in self.entry.octets.now }
    {
        octets::part(self.octets, HEAD, self.config_length() as usize)
    }
}

// Stores a head, with a configuration of this length.
#[tactic(auto, unfolding(rules::specs::Saved::head_octets))]
fn put_head(slot: &mut [u8], h: Head, size: u8)
    requires { head_room ≤ length slot.old }
    ensures { slot.new ≡ head_octets h size ++ drop head_room slot.old }
{
    let [high, low] = h.delay.unwrap_or(0).to_be_bytes();
    slot[SEID] = h.seid.0;
    slot[STATE] = state_octet(h.state);
    slot[CHANNEL] = channel_octet(h.channel);
    slot[FAR] = h.far.0;
    slot[DELAY_MARK] = u8::from(h.delay.is_some());
    slot[DELAY_HIGH] = high;
    slot[DELAY_LOW] = low;
    slot[CONFIG_LENGTH] = size;
    slot[UNUSED..HEAD].fill(0);
}

// The head of record i.
pub fn get(records: &[u8], i: usize) -> Head
    requires { (i + 1) * record_room ≤ length records.now }
    ensures { result ≡ head_in (record_at i records.now) }
{
    Slot::at(records, i).head()
}

// Stores the head of record i, with a configuration of this length.
pub fn set(records: &mut [u8], i: usize, h: Head, size: u8)
    requires { (i + 1) * record_room ≤ length records.old }
    ensures { records.new ≡ patch (i * record_room) (head_octets h size) records.old }
{
    let from = i * RECORD;
    put_head(&mut records[from..from + RECORD], h, size);
}

// Stores the head of record i; its configuration stays.
pub fn set_head(records: &mut [u8], i: usize, h: Head)
    requires { (i + 1) * record_room ≤ length records.old }
    ensures { records.new
        ≡ patch (i * record_room) (head_octets h (config_size_at i records.old)) records.old }
{
    let size = Slot::at(records, i).config_length();
    set(records, i, h, size);
}

// The configuration of record i.
pub fn config(records: &[u8], i: usize) -> &[u8]
    requires { ((i + 1) * record_room ≤ length records.now) × (config_size_at i records.now ≤ config_room) }
    ensures { result.now ≡ config_at i records.now }
{
    Slot::at(records, i).config()
}
