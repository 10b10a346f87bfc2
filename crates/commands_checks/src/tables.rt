// What is asked of a command by its signal: the length of its payload, and the state and channel of its endpoint.
ghost use Rattle.std.specs.Prelude.{◌≡◌};
ghost use Rattle.rules.specs.Commands.{signal_of, length_right, wrong_state, may as mayTake};
ghost use Rattle.commands_reply.specs.Codes.{octet_of};

use commands_reply::Code;
use rules::{Channel, Signal, State};
use saved_states::{is_configured, is_idle, is_open, is_set, is_streaming, is_up};

// The signal of a number; any other is unassigned. A function and no `From`, which would have to stand in `rules`, away from the
// tables that go by it: no plainer.
#[tactic(auto, unfolding(rules::specs::Commands::signal_of))]
pub fn signal_of(signal: u8) -> Signal
    ensures { result ≡ signal_of signal }
{
    match signal {
        1 => Signal::Discover,
        2 => Signal::GetCapabilities,
        3 => Signal::SetConfiguration,
        4 => Signal::GetConfiguration,
        5 => Signal::Reconfigure,
        6 => Signal::OpenUp,
        7 => Signal::Start,
        8 => Signal::Close,
        9 => Signal::Suspend,
        10 => Signal::Abort,
        11 => Signal::SecurityControl,
        12 => Signal::GetAllCapabilities,
        13 => Signal::DelayReport,
        _ => Signal::Unassigned,
    }
}

#[tactic(auto, unfolding(rules::specs::Commands::length_right))]
pub fn length_right(signal: Signal, length: usize) -> bool
    ensures { result ≡ length_right signal length }
{
    match signal {
        Signal::Discover => length == 0,
        Signal::GetCapabilities
        | Signal::GetConfiguration
        | Signal::OpenUp
        | Signal::Close
        | Signal::Abort
        | Signal::GetAllCapabilities => length == 1,
        Signal::SetConfiguration => 2 <= length,
        Signal::Reconfigure => 3 <= length,
        Signal::Start | Signal::Suspend | Signal::SecurityControl => 1 <= length,
        Signal::DelayReport => length == 3,
        Signal::Unassigned => true,
    }
}

// Whether an endpoint takes the command in its state.
#[tactic(auto, unfolding(rules::specs::Commands::may))]
pub fn may(signal: Signal, state: State, channel: Channel) -> bool
    ensures { result ≡ mayTake signal state channel }
{
    match signal {
        Signal::SetConfiguration => is_idle(state),
        Signal::GetConfiguration | Signal::DelayReport => is_set(state),
        Signal::Reconfigure => is_open(state),
        Signal::OpenUp => is_configured(state),
        Signal::Start => is_open(state) && is_up(channel),
        Signal::Close => is_open(state) || is_streaming(state),
        Signal::Suspend => is_streaming(state),
        _ => true,
    }
}

// The code where it does not.
#[tactic(auto, unfolding(rules::specs::Commands::wrong_state, rules::specs::Endpoints::is_idle))]
pub fn wrong_state(signal: Signal, state: State) -> Code
    ensures { octet_of result ≡ wrong_state signal state }
{
    match (signal, state) {
        (Signal::SetConfiguration, _) => Code::InUse,
        (Signal::Reconfigure, State::Idle) => Code::NotInUse,
        _ => Code::WrongState,
    }
}
