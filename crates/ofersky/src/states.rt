// What a call hands back to its host. `host` makes states of a host's bytes, and bytes of states.
ghost use Rattle.std.specs.Prelude.{◌≡◌};
ghost use Rattle.host.specs.States.{handed};

use host::{HostOutcome, HostState};
use machine::Outcome;

// What a call gives back to its host. A state with bytes that are no flags comes back as it went in.
// The `return` is there for speed, as in `State::from`.
#[tactic(auto, unfolding(host::specs::States::handed))]
pub(crate) fn handed(h: HostState, o: Outcome) -> HostOutcome
    ensures { result ≡ handed h o }
{
    if h.has_flags() {
        return HostOutcome {
            state: HostState::from(o.state),
            answer: o.answer,
        };
    }
    HostOutcome {
        state: h,
        answer: o.answer,
    }
}
