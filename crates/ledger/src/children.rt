ghost use Rattle.std.specs.Prelude.{◌≡◌, length};
ghost use Rattle.std.specs.List.{list_any, range_with_len};
ghost use Rattle.ledger.specs.Laws.{child_of, has_children};
ghost use Rattle.ledger.specs.Model.{place_at, share};

use crate::host::Ledger;
use crate::view::Standing;

// Whether a place is a child of `parent`.
fn is_child<L: Ledger>(ledger: &L, place: usize, parent: usize) -> bool
    ensures { result ≡ child_of parent (place_at (L.Ledger.model ledger.now) place).parent }
{
    ledger
        .view(place)
        .is_ok_and(|view| view.parent.is_some_and(|up| up.place == parent))
}

// Whether any place is a child of `parent`.
fn any_child<L: Ledger>(ledger: &L, parent: usize) -> bool
    ensures { result ≡ list_any (λ p. child_of parent (place_at (L.Ledger.model ledger.now) p).parent) (range_with_len 0 (length (L.Ledger.model ledger.now).places)) }
{
    (0..ledger.count()).any(|child| is_child(ledger, child, parent))
}

// Whether a place has children, so that it is a factory place.
#[tactic(auto, using(crate::proofs::Offspring::any_child))]
pub fn has_children<L: Ledger>(ledger: &L, place: usize) -> bool
    ensures { result ≡ has_children place (L.Ledger.model ledger.now).places }
{
    any_child(ledger, place)
}

// The amount that a place gives to its child at an index, none until it is settled.
pub fn share<L: Ledger>(ledger: &L, place: usize, index: usize) -> Option<u64>
    ensures { result ≡ share (place_at (L.Ledger.model ledger.now) place).stage index }
{
    let view = ledger.view(place).ok()?;
    match view.standing {
        Standing::Settled { .. } => Some(view.amounts.get(index).copied().unwrap_or(0)),
        _ => None,
    }
}
