ghost use Rattle.std.specs.Prelude.{◌≡◌, length};

use ledger::row::Row;

// The children that a factory adds: the place below that is their parent, and a row for each.
#[derive(Clone, Copy)]
pub(crate) struct Children {
    pub(crate) seat: usize,
    pub(crate) rows: [Row; 8],
    ghost long: { length rows ≡ 8 },
}
