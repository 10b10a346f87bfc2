// A burst taken on a legal connection (document 02, Q-1): what one packet does, over packets that lie one behind the other. The
// book, the size, the areas and the connection are judged before; a packet leaves a legal connection to the next.
#![tactic(auto)]

ghost use Rattle.std.specs.Prelude.{◌≡◌};
ghost use Rattle.rules.specs.Host.{Answered};
ghost use Rattle.rules.specs.Bursts.{packets_in, burst_refusal, none_told, BurstAnswered, burst_taken};
ghost use Rattle.bridge_burst.specs.Slots.{MayTakeAt, taken_at};

use book::places::RightBook;
use bridge_packet::nothing;
use rules::{Burst, Told};

// A refusal.
#[tactic(auto, unfolding(rules::specs::Bursts::none_told, rules::specs::Bursts::filled))]
pub fn none_told(number: u8) -> Burst
    ensures { result ≡ none_told number }
{
    Burst {
        number,
        told: [nothing(0); 16],
    }
}

// Takes a packet on the 64 octets of the reply area that begin at `from`: by their place, as after `chunks_mut` a proof knows
// nothing of what was written.
fn take_at(
    book: RightBook<'_>,
    size: usize,
    saved: &mut [u8],
    packet: &[u8],
    from: usize,
    reply: &mut [u8],
) -> Told
    requires { MayTakeAt book.octets.now saved.old from reply.old }
    ensures { ◌≡◌ {A = Answered} (record { told = result; saved = saved.new; reply = reply.new })
        (taken_at book.entry.octets.now size saved.old packet.now from reply.old) }
{
    bridge_packet::take(book, size, saved, packet, &mut reply[from..from + 64])
}

// Takes the packets of a burst, each on its own 64 octets. A length that goes past the end takes the octets that are left.
pub fn take_all(
    book: RightBook<'_>,
    size: usize,
    saved: &mut [u8],
    octets: &[u8],
    lengths: &[usize],
    reply: &mut [u8],
) -> Burst
    requires { burst_refusal book.octets.now size saved.old lengths.now reply.old ≡ 0 }
    ensures { ◌≡◌ {A = BurstAnswered} (record { burst = result; saved = saved.new; reply = reply.new })
        (burst_taken book.entry.octets.now size saved.old (packets_in octets.now lengths.now)
        reply.old) }
{
    let mut told = [nothing(0); 16];
    let mut at = 0;
    for (i, length) in lengths.iter().enumerate() {
        let end = at + (*length).min(octets.len() - at);
        told[i] = take_at(book, size, saved, &octets[at..end], i * 64, reply);
        at = end;
    }
    Burst { number: 0, told }
}
