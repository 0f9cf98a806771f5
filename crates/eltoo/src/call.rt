ghost use Rattle.std.specs.Prelude.{◌≡◌};

use state::state::State;

// One of the six calls of a station.
#[derive(Clone, Copy, PartialEq, Eq)]
pub enum Call {
    Agree(State),
    Claim(usize),
    Post(State, u64),
    Settle(usize),
    Advance(u64),
    Round,
}
