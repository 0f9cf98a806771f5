ghost use Rattle.std.specs.Prelude.{◌≡◌, ℕ, length, None, slice_index_or};
ghost use Rattle.frozen.specs.Holding.{Holds, held_model, Laid-prop, Holds-prop};
ghost use Rattle.ledger.specs.Laws.{Laid};

use ledger::view::View;
use state::quantity::Height;

// What every place of a ledger showed at one moment, and after them nothing.
#[derive(Drop)]
pub struct Frozen {
    pub(crate) height: Height,
    // kept beside the views, so that it is not counted at each look
    pub(crate) count: usize,
    pub(crate) views: [Option<View>; 64],
    ghost counted: { count ≡ length (held_model height.blocks views).places },
    ghost laid: { Laid (held_model height.blocks views) } by { Laid-prop _ },
    ghost holds: { (p : ℕ) → Holds (slice_index_or views p None) (held_model height.blocks views) p } by { λ a b i p. Holds-prop _ _ p (a p) (b p) i },
}
