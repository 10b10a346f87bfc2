// What an endpoint keeps: nothing while it is idle, and else a far SEID, a configuration that could have been stored, and a delay
// only where one can be reported.
#![tactic(auto)]

ghost use Rattle.std.specs.Prelude.{◌≡◌, not, ◌&&◌, ◌||◌, eqb};
ghost use Rattle.rules.specs.Elements.{items, has};
ghost use Rattle.rules.specs.Book.{is_source};
ghost use Rattle.rules.specs.Endpoints.{is_reported};
ghost use Rattle.saved_keeps.specs.Settings.{settings_right};

use elements_offers::offers;
use elements_reader::Offer;
use elements_storable::could_store;
use rules::FarSeid;
use saved_states::far_right;

// Whether a delay can be reported: to a source whose configuration has category 8, which has no value.
#[tactic(auto, unfolding(rules::specs::Book::is_source))]
pub fn takes_delay(kind: u8, config: &[u8]) -> bool
    ensures { result ≡ is_source kind && has 8 (items config.now) }
{
    kind / 8 % 2 == 0 && offers(config, 0, 8, b"")
}

// Whether the delay may be there.
#[tactic(auto, unfolding(rules::specs::Endpoints::is_reported))]
fn delay_right(delay: Option<u16>, kind: u8, config: &[u8]) -> bool
    ensures { result ≡ (not (is_reported delay) || (is_source kind && has 8 (items config.now))) }
{
    delay.is_none() || takes_delay(kind, config)
}

#[tactic(auto, unfolding(rules::specs::Endpoints::is_reported))]
pub fn keeps_nothing(far: FarSeid, length: u8, delay: Option<u16>) -> bool
    ensures { result ≡ (eqb far.0 0 && eqb length 0 && not (is_reported delay)) }
{
    far.0 == 0 && length == 0 && delay.is_none()
}

// What an endpoint of this offer keeps while it is not idle.
#[tactic(auto, unfolding(crate::specs::Settings::settings_right))]
pub fn keeps_settings(
    offer: Offer<'_>,
    kind: u8,
    far: FarSeid,
    config: &[u8],
    delay: Option<u16>,
) -> bool
    ensures { result ≡ settings_right offer.entry.list.now kind far config.now delay }
{
    far_right(far) && could_store(offer, config, 0) && delay_right(delay, kind, config)
}
