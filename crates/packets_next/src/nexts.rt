// The answers of a gathering step.
use rules::Header;

// What a packet leads to: no gathering and no message, a message in this one packet, a gathering that begins or goes on, or a
// message of which this packet is the last part.
#[derive(Clone, Copy)]
pub enum Next {
    Ended,
    Single(Header),
    Begun,
    Grown,
    Complete(Header),
}
