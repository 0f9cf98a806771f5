ghost use Rattle.std.specs.Prelude.{◌≡◌, ℕ, ◌<◌, length, slice_index};
ghost use Rattle.account.specs.Accounts.{paid_at, standing_at};
ghost use Rattle.ledger.specs.Model.{PlaceShows, place_at, value_of};

use ledger::children::{has_children, share};
use ledger::host::Ledger;
use ledger::view::{Standing, View};

// What one place adds to an account.
#[derive(Clone, Copy, Default)]
pub(crate) struct Part {
    pub(crate) paid: [u64; 8],
    pub(crate) standing: u64,
}

// The value of a place, none while it is shut.
fn value_of<L: Ledger>(ledger: &L, place: usize, view: &View) -> Option<u64>
    requires { PlaceShows view.now (value_of (L.Ledger.model ledger.now) place) (place_at (L.Ledger.model ledger.now) place) }
    ensures { result ≡ value_of (L.Ledger.model ledger.now) place }
{
    match view.parent {
        None => Some(view.funding),
        Some(parent) => share(ledger, parent.place, parent.index),
    }
}

// What a place adds: a settled channel pays its amounts, and in an open or posted place its value stands.
pub(crate) fn part_of<L: Ledger>(ledger: &L, place: usize) -> Part
    requires { place < length (L.Ledger.model ledger.now).places }
    ensures paid { (j : ℕ) → slice_index result.paid j ≡ paid_at (L.Ledger.model ledger.now) j place }
    ensures standing { result.standing ≡ standing_at (L.Ledger.model ledger.now) place }
{
    let view = ledger.view(place).unwrap();
    match view.standing {
        Standing::Open | Standing::Posted { .. } => Part {
            standing: value_of(ledger, place, &view).unwrap_or(0),
            ..Part::default()
        },
        Standing::Settled { .. } if !has_children(ledger, place) => Part {
            paid: view.amounts,
            ..Part::default()
        },
        Standing::Shut | Standing::Settled { .. } => Part::default(),
    }
}
