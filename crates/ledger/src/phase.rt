ghost use Rattle.std.specs.Prelude.{◌≡◌, ◌+◌, ◌≤◌, nat_le};

use state::quantity::{Delay, Height, StateNumber};
use state::state::State;

// The height from which a post is due, up to the last height and the longest delay.
#[derive(Clone, Copy, PartialEq, Eq)]
pub struct Deadline {
    pub blocks: u32,
    ghost high: { blocks ≤ 10002016 },
}

impl Deadline {
    // The height from which a post is due that stands since this one.
    pub fn of(since: Height, delay: Delay) -> Deadline
        ensures { result.blocks ≡ since.blocks + delay.blocks }
    {
        Deadline {
            blocks: since.blocks + delay.blocks,
        }
    }

    // Whether a post with this deadline is due.
    pub fn is_reached(self, height: Height) -> bool
        ensures { result ≡ nat_le self.blocks height.blocks }
    {
        self.blocks <= height.blocks
    }
}

// Where a row stands, whatever its parent is.
#[derive(Clone, Copy, PartialEq, Eq)]
pub enum Phase {
    Open,
    Posted {
        number: StateNumber,
        deadline: Deadline,
    },
    Settled {
        number: StateNumber,
    },
}

// A call on a row that has a value.
#[derive(Clone, Copy)]
pub enum Call {
    Post { state: State, value: u64 },
    Settle,
}
