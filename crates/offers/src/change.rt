ghost use Rattle.std.specs.Prelude.{◌≡◌};
ghost use Rattle.stops.specs.Refusals.{coded};
ghost use Rattle.offers.specs.Changes.{changed};

use calls::state::State;
use stops::refusal::Refusal;

// What may happen to a number.
#[derive(Clone, Copy)]
pub enum Change {
    Confirm,
    Release,
    Withdraw,
    // its deadline has come
    Lapse,
}

// What a change at a minute makes of a state.
pub(crate) fn state_after(state: State, change: Change, minute: u32) -> Result<State, Refusal>
    ensures { coded result ≡ changed change minute state }
{
    match (state, change) {
        (State::Open(_), Change::Confirm) => Ok(State::Confirmed(minute)),
        (State::Open(_), Change::Release) => Ok(State::Released(minute)),
        (State::Open(deadline), Change::Lapse) => Ok(State::Lapsed(deadline)),
        (State::Confirmed(_), Change::Withdraw) => Ok(State::Withdrawn(minute)),
        (_, Change::Withdraw) => Err(Refusal::NotConfirmed),
        (_, _) => Err(Refusal::NotOpen),
    }
}
