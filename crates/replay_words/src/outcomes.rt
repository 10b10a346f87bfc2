// A reply: which command it answers, for which endpoint, and what became of it.
use std::fmt;

// The name of a signal in AVDTP.
fn signal_name(signal: u8) -> &'static str {
    match signal {
        1 => "Discover (01h)",
        2 => "Get Capabilities (02h)",
        3 => "Set Configuration (03h)",
        4 => "Get Configuration (04h)",
        5 => "Reconfigure (05h)",
        6 => "Open (06h)",
        7 => "Start (07h)",
        8 => "Close (08h)",
        9 => "Suspend (09h)",
        10 => "Abort (0Ah)",
        11 => "Security Control (0Bh)",
        12 => "Get All Capabilities (0Ch)",
        13 => "Delay Report (0Dh)",
        _ => "the signal is not one of AVDTP's",
    }
}

// The name of a code in AVDTP, section 8.20.6.
fn code_name(code: u8) -> &'static str {
    match code {
        0x11 => "BAD_LENGTH (11h)",
        0x12 => "BAD_ACP_SEID (12h)",
        0x13 => "SEP_IN_USE (13h)",
        0x14 => "SEP_NOT_IN_USE (14h)",
        0x17 => "BAD_SERV_CATEGORY (17h)",
        0x18 => "BAD_PAYLOAD_FORMAT (18h)",
        0x19 => "NOT_SUPPORTED_COMMAND (19h)",
        0x1A => "INVALID_CAPABILITIES (1Ah)",
        0x23 => "BAD_MEDIA_TRANSPORT_FORMAT (23h)",
        0x25 => "BAD_RECOVERY_FORMAT (25h)",
        0x26 => "BAD_ROHC_FORMAT (26h)",
        0x27 => "BAD_CP_FORMAT (27h)",
        0x28 => "BAD_MULTIPLEXING_FORMAT (28h)",
        0x29 => "UNSUPPORTED_CONFIGURATION (29h)",
        0x31 => "BAD_STATE (31h)",
        _ => "",
    }
}

// Whether a command names every SEID of its payload, or the first alone: Start and Suspend name a list.
fn names_list(signal: u8) -> bool {
    matches!(signal, 7 | 9)
}

// The length that a command asks for: 11h is told of the command, or, where that was long enough, of an element.
fn length_asked(signal: u8, length: usize) -> &'static str {
    match signal {
        1 => "the payload must be empty",
        3 if length < 2 => "the payload must be 2 octets or more",
        5 if length < 3 => "the payload must be 3 octets or more",
        3 | 5 => "the element is cut short",
        7 | 9 | 11 => "the payload must be 1 octet or more",
        13 => "the payload must be 3 octets",
        _ => "the payload must be 1 octet",
    }
}

// The state that a command asks for.
fn state_asked(signal: u8) -> &'static str {
    match signal {
        5 => "the endpoint must be open",
        6 => "the endpoint must be configured, and no other one may await its channel",
        7 => "the endpoint must be open, with its channel up",
        8 => "the endpoint must be open or streaming",
        9 => "the endpoint must be streaming",
        _ => "the endpoint must be configured, open or streaming",
    }
}

// What became of a command that was rejected: the code, what it names besides, which is a SEID in Start and Suspend, else a
// category, where 0 stands for the command, and how long the command's payload was.
#[derive(Clone, Copy)]
struct Reject {
    signal: u8,
    code: u8,
    named: u8,
    length: usize,
}

impl Reject {
    // The check of the command that failed.
    fn check(&self) -> &'static str {
        match self.code {
            0x11 => length_asked(self.signal, self.length),
            0x12 => "the SEID must be in the book",
            0x13 => "the endpoint must be idle",
            0x14 => "the endpoint must not be idle",
            0x17 => "the category must be 1 to 8",
            // told of the far SEID, or of an element's category
            0x18 if self.named == 0 => "the far SEID must be 1 to 62",
            0x18 => "the category came before in this command, or the length of its value is wrong",
            0x19 if self.signal == 11 => "security control is not supported",
            0x19 =>
                "the endpoint must be a source that is configured with delay reporting (category 8)",
            0x1A => "this category cannot be reconfigured",
            0x23 => "the value of media transport must be empty",
            0x25 => "the value of recovery must be 3 octets",
            0x26 => "the value of header compression must be 1 octet",
            0x27 => "the value of content protection must be 2 octets or more",
            0x28 => "the value of multiplexing must not be empty",
            0x29 =>
                "the endpoint does not offer this, or a category that must be there (1 and 7) is missing",
            0x31 => state_asked(self.signal),
            _ => "",
        }
    }
}

impl fmt::Display for Reject {
    fn fmt<W: fmt::Write>(&self, f: &mut fmt::Formatter<W>) -> fmt::Result {
        write!(f, ": rejected with {}", code_name(self.code))?;
        let named = self.named;
        if names_list(self.signal) {
            write!(f, " at SEID {}", named / 4)?;
        } else if named != 0 {
            write!(f, " at category {named}")?;
        }
        write!(f, ": {}", self.check())
    }
}

// The reply to a command: its message type, the command's signal, the command's payload, which is what came `before` and the
// `last` part, and the reply's payload.
#[derive(Clone, Copy)]
pub struct Outcome<'a> {
    pub mtype: u8,
    pub signal: u8,
    pub before: &'a [u8],
    pub last: &'a [u8],
    pub reply: &'a [u8],
}

impl Outcome<'_> {
    // The SEIDs that the command names; Discover names none.
    fn write_named<W: fmt::Write>(&self, f: &mut fmt::Formatter<W>) -> fmt::Result {
        let mut octets = self.before.iter().chain(self.last);
        let Some(first) = octets.next() else {
            return Ok(());
        };
        if self.signal == 1 {
            return Ok(());
        }
        write!(f, " for SEID {}", *first / 4)?;
        if names_list(self.signal) {
            for octet in octets {
                write!(f, " {}", *octet / 4)?;
            }
        }
        Ok(())
    }

    // A reject's payload is a code, or what it names and a code.
    fn write_reject<W: fmt::Write>(&self, f: &mut fmt::Formatter<W>) -> fmt::Result {
        let (named, code) = match self.reply {
            [code] => (0, *code),
            [named, code] => (*named, *code),
            _ => return Ok(()),
        };
        let length = self.before.len().saturating_add(self.last.len());
        let signal = self.signal;
        let reject = Reject {
            signal,
            code,
            named,
            length,
        };
        write!(f, "{reject}")
    }
}

impl fmt::Display for Outcome<'_> {
    fn fmt<W: fmt::Write>(&self, f: &mut fmt::Formatter<W>) -> fmt::Result {
        f.write_str(signal_name(self.signal))?;
        if self.mtype == 1 {
            return f.write_str(": general reject");
        }
        self.write_named(f)?;
        if self.mtype == 2 {
            return f.write_str(": accepted");
        }
        self.write_reject(f)
    }
}
