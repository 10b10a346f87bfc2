// What a command says, and the rejects that it writes at the front of the reply area.
#![tactic(auto)]

ghost use Rattle.std.specs.Prelude.{◌≡◌, [], ◌∷◌, ◌≤◌, length};
ghost use Rattle.rules.specs.Octets.{front};
ghost use Rattle.rules.specs.Commands.{reject, rejects};
ghost use Rattle.rules.specs.Host.{payload_of};
ghost use Rattle.commands_reply.specs.Answers.{said_of};
ghost use Rattle.commands_reply.specs.Codes.{octet_of};

use rules::{Fault, Signal};

// What is said to the far end: nothing, that the signal is not known, or an answer with the length of its payload, which stands
// at the front of the reply area.
#[derive(Drop)]
pub enum Said {
    Silence,
    GeneralReject,
    Accept { length: usize },
    Reject { length: usize },
}

// Why a command is rejected, where no element is at fault (001, 8.20.6.2): its length is another than expected, the book has no
// such endpoint, that is in use or is not, the payload's form, what is not supported here, the endpoint's state.
#[derive(Clone, Copy)]
pub enum Code {
    Length = 0x11,
    NoEndpoint = 0x12,
    InUse = 0x13,
    NotInUse = 0x14,
    Form = 0x18,
    NotSupported = 0x19,
    WrongState = 0x31,
}

impl From<Code> for u8 {
    ghost from_gives = { λ code octet. octet ≡ octet_of code };

    fn from(code: Code) -> u8 {
        code as u8
    }
}

// A reject of one octet, the code.
#[tactic(auto, using(crate::proofs::Fronts::front_one))]
pub fn rejected(reply: &mut [u8], code: u8) -> Said
    requires { 1 ≤ length reply.old }
    ensures said { result ≡ said_of (reject (code ∷ [])) }
    ensures reply { reply.new ≡ front (code ∷ []) reply.old }
{
    reply[0] = code;
    Said::Reject { length: 1 }
}

// A reject of two octets, what failed and the code.
#[tactic(auto, using(crate::proofs::Fronts::front_two))]
pub fn rejected_for(reply: &mut [u8], what: u8, code: u8) -> Said
    requires { 2 ≤ length reply.old }
    ensures said { result ≡ said_of (reject (what ∷ code ∷ [])) }
    ensures reply { reply.new ≡ front (what ∷ code ∷ []) reply.old }
{
    reply[0] = what;
    reply[1] = code;
    Said::Reject { length: 2 }
}

// A reject for an element that failed.
pub fn rejected_element(reply: &mut [u8], fault: Fault) -> Said
    requires { 2 ≤ length reply.old }
    ensures said { result ≡ said_of (reject (fault.category ∷ fault.code ∷ [])) }
    ensures reply { reply.new ≡ front (fault.category ∷ fault.code ∷ []) reply.old }
{
    rejected_for(reply, fault.category, fault.code)
}

// A reject by the signal: what failed and the code, the code, or nothing.
#[tactic(auto, unfolding(rules::specs::Commands::rejects, rules::specs::Host::payload_of, rules::specs::Octets::front))]
pub fn refused(reply: &mut [u8], signal: Signal, what: u8, code: u8) -> Said
    requires { 2 ≤ length reply.old }
    ensures said { result ≡ said_of (rejects signal what code) }
    ensures reply { reply.new ≡ front (payload_of (rejects signal what code)) reply.old }
{
    match signal {
        Signal::SetConfiguration | Signal::Reconfigure | Signal::Start | Signal::Suspend =>
            rejected_for(reply, what, code),
        Signal::Abort => Said::Silence,
        Signal::Unassigned => Said::GeneralReject,
        _ => rejected(reply, code),
    }
}
