// Why a call is refused, in the order of the numbers that the host is told (documents 01 and 02).
ghost use Rattle.std.specs.Prelude.{◌≡◌};
ghost use Rattle.rules.specs.Refusals.{number_of, number_told};

#[derive(Clone, Copy, PartialEq, Eq)]
pub enum Refusal {
    // the book: octets that are missing or left over, its mark, its version, its count, a SEID, a kind octet, a list
    BookLength = 1,
    BookMark = 2,
    BookVersion = 3,
    BookCount = 4,
    BookSeid = 5,
    BookKind = 6,
    BookList = 7,
    PacketSize = 8,
    // a lent area that is too short
    Area = 9,
    // an event or a question that does not apply
    NotApplicable = 10,
    // a message that is not to be cut
    Message = 11,
    Saved = 12,
    // a burst of more than 16 packets
    Burst = 13,
}

impl From<Refusal> for u8 {
    ghost from_gives = { λ refusal number. number ≡ number_of refusal };

    fn from(refusal: Refusal) -> u8 {
        refusal as u8
    }
}

// The number that the host is told of a call: 0 where it was not refused.
pub fn number(done: Result<(), Refusal>) -> u8
    ensures { result ≡ number_told done }
{
    match done {
        Ok(()) => 0,
        Err(refusal) => u8::from(refusal),
    }
}
