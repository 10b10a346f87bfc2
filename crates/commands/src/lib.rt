// The dispatcher: every message that is complete goes to its command, by the signal. A command that names one endpoint begins
// with the checks that all of them share, and then does at the endpoint what is its own.
#![tactic(auto)]

ghost use Rattle.std.specs.Prelude.{◌≡◌, true};
ghost use Rattle.rules.specs.Commands.{signal_of, obey as obeying};
ghost use Rattle.saved.specs.Serves.{Serves};
ghost use Rattle.commands_reply.specs.Obeys.{Obeys};
ghost use Rattle.commands_checks.specs.Met.{names_one};
ghost use Rattle.commands_checks.specs.Named.{Named};
ghost use Rattle.commands.specs.Messages.{answering};

use book::places::{Place, RightBook};
use commands_checks::preambles::preamble;
use commands_checks::tables::signal_of;
use commands_reply::Said;
use rules::{Header, Signal};

// What a command that names one endpoint does there. Book, records, payload and reply area stay four arguments here and below: as
// one struct by value they are proved too, but no plainer, since a clause then reads what is left behind the fields by their
// position (`ask.exit.1.0.now`, `ask.exit.1.1.1.0.now`), and a command that moves nothing would not say so by its `&[u8]`.
#[tactic(auto, unfolding(commands_checks::specs::Met::names_one))]
fn act(
    signal: Signal,
    book: RightBook<'_>,
    records: &mut [u8],
    payload: &[u8],
    reply: &mut [u8],
    at: Place,
) -> Said
    requires { (names_one signal ≡ true) × Named signal book.octets.now records.old payload.now reply.old at }
    ensures { Obeys (obeying signal) book.entry.octets.now records.old payload.now reply.old
        result records.new reply.new }
{
    match signal {
        Signal::GetCapabilities => commands_show::shows::get_capabilities(
            book, records, payload, reply, at,
        ),
        Signal::SetConfiguration => commands_set::settings::set_configuration(
            book, records, payload, reply, at,
        ),
        Signal::GetConfiguration => commands_show::shows::get_configuration(
            book, records, payload, reply, at,
        ),
        Signal::Reconfigure => commands_set::renewals::reconfigure(
            book, records, payload, reply, at,
        ),
        Signal::OpenUp => commands_stream::opens::open_up(book, records, payload, reply, at),
        Signal::Close => commands_stream::leaves::close(book, records, payload, reply, at),
        Signal::Abort => commands_stream::leaves::abort(book, records, payload, reply, at),
        Signal::SecurityControl => commands_show::shows::security_control(
            book, records, payload, reply, at,
        ),
        Signal::GetAllCapabilities => commands_show::shows::get_all_capabilities(
            book, records, payload, reply, at,
        ),
        Signal::DelayReport => commands_stream::delays::delay_report(
            book, records, payload, reply, at,
        ),
        // these name no endpoint, or several
        Signal::Discover | Signal::Start | Signal::Suspend | Signal::Unassigned => unreachable!(),
    }
}

// A command that names one endpoint.
fn on_endpoint(
    signal: Signal,
    book: RightBook<'_>,
    records: &mut [u8],
    payload: &[u8],
    reply: &mut [u8],
) -> Said
    requires { (names_one signal ≡ true) × Serves book.octets.now records.old payload.now reply.old }
    ensures { Obeys (obeying signal) book.entry.octets.now records.old payload.now reply.old
        result records.new reply.new }
{
    match preamble(signal, book, records, payload) {
        Ok(at) => act(signal, book, records, payload, reply, at),
        Err(code) => commands_reply::refused(reply, signal, 0, u8::from(code)),
    }
}

// A command, by its signal: 00 and what stands behind 0D are unassigned.
pub fn obey(
    signal: u8,
    book: RightBook<'_>,
    records: &mut [u8],
    payload: &[u8],
    reply: &mut [u8],
) -> Said
    requires { Serves book.octets.now records.old payload.now reply.old }
    ensures { Obeys (obeying (signal_of signal)) book.entry.octets.now records.old payload.now
        reply.old result records.new reply.new }
{
    let command = signal_of(signal);
    match command {
        Signal::Discover => commands_show::discovers::discover(book, records, payload, reply),
        Signal::Start => commands_shift::start(book, records, payload, reply),
        Signal::Suspend => commands_shift::suspend(book, records, payload, reply),
        Signal::Unassigned => Said::GeneralReject,
        _ => on_endpoint(command, book, records, payload, reply),
    }
}

// A message of any type: one that is no command is not answered.
#[tactic(auto, using(crate::proofs::Messages::no_command))]
pub fn answer(
    header: Header,
    book: RightBook<'_>,
    records: &mut [u8],
    payload: &[u8],
    reply: &mut [u8],
) -> Said
    requires { Serves book.octets.now records.old payload.now reply.old }
    ensures { Obeys (answering header) book.entry.octets.now records.old payload.now
        reply.old result records.new reply.new }
{
    if header.mtype != 0 {
        return Said::Silence;
    }
    obey(header.signal, book, records, payload, reply)
}
