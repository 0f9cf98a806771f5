ghost use Rattle.std.specs.Prelude.{◌≡◌, ◌≤◌, length, sum};
ghost use Rattle.state.specs.Limits.{max_place, max_total, parties};

use crate::quantity::StateNumber;

// How the value of a place is divided among its eight parties, or among the eight children of a factory.
#[derive(Clone, Copy, PartialEq, Eq)]
pub struct State {
    pub place: usize,
    pub number: StateNumber,
    pub amounts: [u64; 8],
    ghost placed: { place ≤ max_place },
    ghost long: { length amounts ≡ parties },
    ghost capped: { sum amounts ≤ max_total },
}
