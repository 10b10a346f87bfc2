// A link event as two numbers.
ghost use Rattle.std.specs.Prelude.{◌≡◌};
ghost use Rattle.host.specs.Exports.{event_of};

use rules::{Event, OurSeid};

// Any other number is the channel of SEID 0, which no book has: refused with 10 where nothing comes before it.
#[tactic(auto, using(crate::proofs::OtherEvents::no_event, crate::proofs::OtherEvents::down_event))]
pub fn event_of(which: u8, seid: u8) -> Event
    ensures { result ≡ event_of which seid }
{
    match which {
        0 => Event::Up,
        1 => Event::Down(OurSeid(seid)),
        2 => Event::Lost,
        _ => Event::Down(OurSeid(0)),
    }
}
