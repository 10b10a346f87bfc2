// The words that the definitions and the code share; the meaning stands in specs/. A message type is `mtype`, as the language
// keeps `type` for itself. What the host is told is laid out as C lays it out, with its number beside it: C has no Result and no
// Option.
#![tactic(auto)]

pub mod layout;
pub mod refusals;

// A SEID of ours, and one of the far end's: counted separately, and neither is accepted where the other belongs.
#[derive(Clone, Copy, PartialEq, Eq)]
pub struct OurSeid(pub u8);

#[derive(Clone, Copy)]
pub struct FarSeid(pub u8);

// An endpoint's state, in the order of the saved record's octet.
#[derive(Clone, Copy, PartialEq, Eq)]
pub enum State {
    Idle,
    Configured,
    Open,
    Streaming,
    Closing,
    Aborting,
}

// An endpoint's transport channel.
#[derive(Clone, Copy, PartialEq, Eq)]
pub enum Channel {
    Absent,
    Awaited,
    Up,
}

// The head of an endpoint: all that is kept of it but its configuration. The delay that the far end reported is in tenths of a
// millisecond.
#[derive(Clone, Copy)]
pub struct Head {
    pub seid: OurSeid,
    pub state: State,
    pub channel: Channel,
    pub far: FarSeid,
    pub delay: Option<u16>,
}

// A command, by its signal (001, 8.5): 01 to 0D in their order, then 00 and 0E to 3F.
#[derive(Clone, Copy)]
pub enum Signal {
    Discover,
    GetCapabilities,
    SetConfiguration,
    GetConfiguration,
    Reconfigure,
    OpenUp,
    Start,
    Close,
    Suspend,
    Abort,
    SecurityControl,
    GetAllCapabilities,
    DelayReport,
    Unassigned,
}

// What the host tells of the link.
#[derive(Clone, Copy)]
pub enum Event {
    Up,
    Down(OurSeid),
    Lost,
}

// What a list of elements is checked for: as the offer of an entry with a media type, or as what a command asks.
#[derive(Clone, Copy)]
pub enum Rule {
    Offer { media: u8 },
    Setting,
    Reconfiguring,
}

// The first failure of a list of elements: the category and the code that it is told with. In the definitions the code 0 says
// that there is none (`Elements.fault_in`); the code has a Result, and such a fault is not made.
#[derive(Clone, Copy)]
pub struct Fault {
    pub category: u8,
    pub code: u8,
}

// The header of a message: its label, its message type (0 command, 1 general reject, 2 accept, 3 reject) and its signal. They are
// numbers because the cutter takes any and refuses what is too high (`Host.cut_refusal`).
#[derive(Clone, Copy)]
pub struct Header {
    pub label: u8,
    pub mtype: u8,
    pub signal: u8,
}

// What the cutter tells: a number, and the length of the packet that was written.
#[repr(C)]
#[derive(Clone, Copy, PartialEq, Eq)]
pub struct Piece {
    pub number: u8,
    pub length: usize,
}

// What the host is told of a packet: a number, and of the reply its label, message type (0 silence, 1 general reject, 2 accept,
// 3 reject), signal and length.
#[repr(C)]
#[derive(Clone, Copy)]
pub struct Told {
    pub number: u8,
    pub label: u8,
    pub mtype: u8,
    pub signal: u8,
    pub length: usize,
}

// What the host is told of a burst: a number, and of each of its packets what is told of a packet (document 02, Q-1). An array by
// value: a refusal tells zeros, and no area is needed to write them to.
#[repr(C)]
#[derive(Drop)]
pub struct Burst {
    pub number: u8,
    pub told: [Told; 16],
}

// What the host is told of a delay: a number, whether one was reported, and tenths of a millisecond.
#[repr(C)]
#[derive(Clone, Copy)]
pub struct Heard {
    pub number: u8,
    pub reported: bool,
    pub tenths: u16,
}

// What the host is told of how an endpoint stands: a number, the state, the channel and the far SEID. The number stands beside
// the rest because `Host.status_call` shows an idle endpoint with each refusal.
#[derive(Clone, Copy)]
pub struct Standing {
    pub number: u8,
    pub state: State,
    pub channel: Channel,
    pub far: FarSeid,
}
