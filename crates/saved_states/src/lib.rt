// Tests of an endpoint's state and channel and of a far SEID.
#![tactic(auto)]

ghost use Rattle.std.specs.Prelude.{◌≡◌};
ghost use Rattle.rules.specs.Endpoints.{is_idle, is_absent, is_awaited, is_up, far_right};
ghost use Rattle.rules.specs.Commands.{is_configured, is_open, is_streaming, is_set};

use rules::{Channel, FarSeid, State};

#[tactic(auto, unfolding(rules::specs::Endpoints::is_idle))]
pub fn is_idle(state: State) -> bool
    ensures { result ≡ is_idle state }
{
    state == State::Idle
}

#[tactic(auto, unfolding(rules::specs::Commands::is_configured))]
pub fn is_configured(state: State) -> bool
    ensures { result ≡ is_configured state }
{
    state == State::Configured
}

#[tactic(auto, unfolding(rules::specs::Commands::is_open))]
pub fn is_open(state: State) -> bool
    ensures { result ≡ is_open state }
{
    state == State::Open
}

#[tactic(auto, unfolding(rules::specs::Commands::is_streaming))]
pub fn is_streaming(state: State) -> bool
    ensures { result ≡ is_streaming state }
{
    state == State::Streaming
}

// Configured, open or streaming.
#[tactic(auto, unfolding(rules::specs::Commands::is_set, rules::specs::Commands::is_open, rules::specs::Commands::is_streaming))]
pub fn is_set(state: State) -> bool
    ensures { result ≡ is_set state }
{
    is_configured(state) || is_open(state) || is_streaming(state)
}

#[tactic(auto, unfolding(rules::specs::Endpoints::is_absent))]
pub fn is_absent(channel: Channel) -> bool
    ensures { result ≡ is_absent channel }
{
    channel == Channel::Absent
}

#[tactic(auto, unfolding(rules::specs::Endpoints::is_awaited))]
pub fn is_awaited(channel: Channel) -> bool
    ensures { result ≡ is_awaited channel }
{
    channel == Channel::Awaited
}

#[tactic(auto, unfolding(rules::specs::Endpoints::is_up))]
pub fn is_up(channel: Channel) -> bool
    ensures { result ≡ is_up channel }
{
    channel == Channel::Up
}

// A far SEID is 1 to 62.
#[tactic(auto, unfolding(rules::specs::Endpoints::far_right, rules::specs::Octets::between))]
pub fn far_right(far: FarSeid) -> bool
    ensures { result ≡ far_right far }
{
    1 <= far.0 && far.0 <= 62
}
