// What is answered at the endpoint that a command names, where nothing is moved.
ghost use Rattle.std.specs.Prelude.{◌≡◌, ◌≤◌, length};
ghost use Rattle.rules.specs.Octets.{front};
ghost use Rattle.rules.specs.Commands.{accept, obey};
ghost use Rattle.rules.specs.declared.Signal.TheVariants.{GetCapabilities, GetConfiguration, SecurityControl};
ghost use Rattle.rules.specs.declared.Signal.TheVariants.{GetAllCapabilities};
ghost use Rattle.commands_reply.specs.Answers.{said_of};
ghost use Rattle.commands_reply.specs.Obeys.{Obeys};
ghost use Rattle.commands_checks.specs.Named.{Named};

use book::places::{Place, RightBook};
use commands_reply::{Code, Said};
use elements_stored::shown::codec_end;
use saved::records::config;

// An accept with a payload.
#[tactic(auto, using(octets::proofs::Patches::front_patch))]
fn accepted_with(reply: &mut [u8], payload: &[u8]) -> Said
    requires { length payload.now ≤ length reply.old }
    ensures said { result ≡ said_of (accept payload.now) }
    ensures reply { reply.new ≡ front payload.now reply.old }
{
    octets::put(reply, 0, payload);
    Said::Accept {
        length: payload.len(),
    }
}

// 02: of what the endpoint offers, the elements of categories 1 to 7, which stand up to the end of the codec. The codec is looked
// for behind the media transport, which begins every list.
pub fn get_capabilities(
    book: RightBook<'_>,
    records: &[u8],
    payload: &[u8],
    reply: &mut [u8],
    at: Place,
) -> Said
    requires { Named GetCapabilities book.octets.now records.now payload.now reply.old at }
    ensures { Obeys (obey GetCapabilities) book.entry.octets.now records.now payload.now
        reply.old result records.now reply.new }
{
    let size = codec_end(octets::part(book.octets, at.from, at.size), 2);
    accepted_with(reply, octets::part(book.octets, at.from, size))
}

// 0C: all of it.
#[tactic(auto, using(crate::proofs::Showing::list_inside, crate::proofs::Showing::list_fits))]
pub fn get_all_capabilities(
    book: RightBook<'_>,
    records: &[u8],
    payload: &[u8],
    reply: &mut [u8],
    at: Place,
) -> Said
    requires { Named GetAllCapabilities book.octets.now records.now payload.now reply.old at }
    ensures { Obeys (obey GetAllCapabilities) book.entry.octets.now records.now payload.now
        reply.old result records.now reply.new }
{
    accepted_with(reply, octets::part(book.octets, at.from, at.size))
}

// 04: the configuration as it is stored.
pub fn get_configuration(
    book: RightBook<'_>,
    records: &[u8],
    payload: &[u8],
    reply: &mut [u8],
    at: Place,
) -> Said
    requires { Named GetConfiguration book.octets.now records.now payload.now reply.old at }
    ensures { Obeys (obey GetConfiguration) book.entry.octets.now records.now payload.now
        reply.old result records.now reply.new }
{
    accepted_with(reply, config(records, at.index))
}

// 0B: no content protection is spoken here.
#[tactic(auto, using(crate::proofs::Showing::shows_none))]
pub fn security_control(
    book: RightBook<'_>,
    records: &[u8],
    payload: &[u8],
    reply: &mut [u8],
    at: Place,
) -> Said
    requires { Named SecurityControl book.octets.now records.now payload.now reply.old at }
    ensures { Obeys (obey SecurityControl) book.entry.octets.now records.now payload.now
        reply.old result records.now reply.new }
{
    commands_reply::rejected(reply, Code::NotSupported as u8)
}
