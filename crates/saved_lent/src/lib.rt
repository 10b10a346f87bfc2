// One record's head, lent: what a channel's coming up or going down makes of it is written where the caller keeps it.
#![tactic(auto)]

ghost use Rattle.std.specs.Prelude.{◌≡◌};
ghost use Rattle.saved_lent.specs.Switched.{switched_head};

use rules::Head;

// Channel up or down of the endpoint whose head is lent.
pub fn switch_channel(e: &mut Head, up: bool)
    ensures { e.new ≡ switched_head up e.old }
{
    *e = if up {
        saved_moves::up(*e)
    } else {
        saved_moves::idle(e.seid)
    };
}
