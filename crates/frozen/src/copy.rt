ghost use Rattle.std.specs.Prelude.{◌≡◌, ℕ, None, slice_index_or};
ghost use Rattle.frozen.specs.Copies.{model_of};
ghost use Rattle.frozen.specs.Holding.{Holds};
ghost use Rattle.ledger.proofs.Keeping.{laws_hold};

use crate::snapshot::Frozen;
use ledger::host::Ledger;
use ledger::view::View;
use state::quantity::Height;
use state::refusal::Refusal;

impl Ledger for Frozen {
    ghost model = { model_of };

    ghost laid = { λ s. s.laid };

    ghost two = { λ s law. laws_hold _ law };

    fn height(&self) -> Height {
        self.height // of the moment
    }

    fn count(&self) -> usize {
        self.count // of the moment
    }

    fn view(&self, place: usize) -> Result<View, Refusal> {
        self.views
            .get(place)
            .copied()
            .flatten()
            .ok_or(Refusal::NoSuchPlace)
    }
}

// What every place of a ledger shows, and after them nothing.
fn views_of<L: Ledger>(ledger: &L) -> [Option<View>; 64]
    ensures { (p : ℕ) → Holds (slice_index_or result p None) (L.Ledger.model ledger.now) p }
{
    let mut views = [None; 64];
    let count = ledger.count();
    // a loop: `from_fn` tells a proof nothing of a ledger that its closure captures
    for (place, view) in views.iter_mut().enumerate() {
        // a place that is not there is not asked for
        if place < count {
            *view = ledger.view(place).ok();
        }
    }
    views
}

impl Frozen {
    // A copy that shows what the ledger shows now.
    #[tactic(auto, using(crate::proofs::Copying::copy_is))]
    pub fn of<L: Ledger>(ledger: &L) -> Frozen
        ensures { model_of result ≡ L.Ledger.model ledger.now }
    {
        Frozen {
            height: ledger.height(),
            count: ledger.count(),
            views: views_of(ledger),
        }
    }
}
