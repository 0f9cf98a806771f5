ghost use Rattle.std.specs.Prelude.{◌≤◌};
ghost use Rattle.state.specs.Limits.{max_total};

use crate::row::Row;

// A root in a table: its funding and its row.
#[derive(Clone, Copy)]
pub struct Root {
    pub funding: u64,
    pub row: Row,
    ghost capped: { funding ≤ max_total },
}
