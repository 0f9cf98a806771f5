ghost use Rattle.std.specs.Prelude.{◌≡◌};

use crate::state::State;

// A state with its seal.
#[derive(Clone, Copy)]
pub struct Update {
    pub state: State,
    pub seal: u64,
}
