// 0D Delay Report: the delay in tenths of a millisecond, high octet first.
ghost use Rattle.rules.specs.Commands.{obey};
ghost use Rattle.rules.specs.declared.Signal.TheVariants.{DelayReport};
ghost use Rattle.commands_reply.specs.Obeys.{Obeys};
ghost use Rattle.commands_checks.specs.Named.{Named};

use book::places::{Place, RightBook};
use commands_reply::{Code, Said};
use saved::records::{config, get, set_head};
use saved_keeps::takes_delay;
use saved_moves::delayed;

#[tactic(auto, using(commands_checks::proofs::Meeting::record_there, commands_checks::proofs::Meeting::config_there))]
pub fn delay_report(
    book: RightBook<'_>,
    records: &mut [u8],
    payload: &[u8],
    reply: &mut [u8],
    at: Place,
) -> Said
    requires { Named DelayReport book.octets.now records.old payload.now reply.old at }
    ensures { Obeys (obey DelayReport) book.entry.octets.now records.old payload.now
        reply.old result records.new reply.new }
{
    if !takes_delay(at.kind, config(records, at.index)) {
        return commands_reply::rejected(reply, Code::NotSupported as u8);
    }
    let tenths = u16::from_be_bytes([payload[1], payload[2]]);
    let h = get(records, at.index);
    set_head(records, at.index, delayed(h, tenths));
    Said::Accept { length: 0 }
}
