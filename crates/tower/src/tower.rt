ghost use Rattle.std.specs.Prelude.{◌≡◌, length};

use state::update::Update;

// How many places a tower has room for.
pub(crate) const PLACES: usize = 64;

// What a tower keeps for a place: the newest agreed state with its seal, or none, and a mark.
#[derive(Clone, Copy)]
pub(crate) struct Watch {
    pub(crate) newest: Option<Update>,
    pub(crate) marked: bool,
}

// What is agreed and marked for each place.
#[derive(Clone, Copy)]
pub struct Tower {
    pub(crate) watches: [Watch; PLACES],
    ghost full: { length watches ≡ 64 },
}
