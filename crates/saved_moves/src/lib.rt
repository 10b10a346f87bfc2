// Moves of one endpoint's head, by value.
#![tactic(auto)]

ghost use Rattle.std.specs.Prelude.{◌≡◌};
ghost use Rattle.rules.specs.Endpoints.{idle_head, in_state, with_channel, with_delay, settled_by, opened as openedBy};
ghost use Rattle.rules.specs.declared.Channel.TheVariants.{Up};

use rules::{Channel, FarSeid, Head, OurSeid, State};

pub fn idle(seid: OurSeid) -> Head
    ensures { result ≡ idle_head seid }
{
    Head {
        seid,
        state: State::Idle,
        channel: Channel::Absent,
        far: FarSeid(0),
        delay: None,
    }
}

pub fn in_state(h: Head, to: State) -> Head
    ensures { result ≡ in_state to h }
{
    Head { state: to, ..h }
}

// Open: the channel is awaited.
pub fn opened(h: Head) -> Head
    ensures { result ≡ openedBy h }
{
    Head {
        state: State::Open,
        channel: Channel::Awaited,
        ..h
    }
}

// Channel up.
pub fn up(h: Head) -> Head
    ensures { result ≡ with_channel Up h }
{
    Head {
        channel: Channel::Up,
        ..h
    }
}

// A delay was reported.
pub fn delayed(h: Head, tenths: u16) -> Head
    ensures { result ≡ with_delay (Some tenths) h }
{
    Head {
        delay: Some(tenths),
        ..h
    }
}

// Configured by a far SEID.
pub fn settled(h: Head, far: FarSeid) -> Head
    ensures { result ≡ settled_by far h }
{
    Head {
        state: State::Configured,
        far,
        ..idle(h.seid)
    }
}
