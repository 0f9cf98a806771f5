ghost use Rattle.std.specs.Prelude.{◌≡◌, true, length};
ghost use Rattle.ledger.specs.Phases.{timed};

use crate::phase::Phase;
use state::quantity::Delay;

// A place in a table: its delay, where it stands, and the amounts that it shows.
#[derive(Clone, Copy)]
pub struct Row {
    pub delay: Delay,
    pub phase: Phase,
    pub amounts: [u64; 8],
    ghost long: { length amounts ≡ 8 },
    ghost timely: { timed phase delay.blocks ≡ true },
}
