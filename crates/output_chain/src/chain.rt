ghost use Rattle.std.specs.Prelude.{◌≡◌, ℕ, ◌<◌, true, length, slice_index};
ghost use Rattle.output_chain.specs.Coins.{tally, stage_of};
ghost use Rattle.output_chain.specs.Models.{backs, fundings_of, model_by, PoolIs};

use crate::output::Output;
use ledger::setup::Terms;
use state::quantity::Height;

// A pool of unspent outputs, beside the terms of the roots and the height. Where a root stands is read off its outputs.
#[derive(Drop)]
pub struct OutputChain {
    pub(crate) height: Height,
    pub(crate) roots: [Terms; 8],
    pub(crate) pool: [Option<Output>; 64],
    ghost eight: { length roots ≡ 8 },
    ghost room: { length pool ≡ 64 },
    // the pool holds exactly the outputs that the stages stand for
    ghost pooled: { PoolIs pool (model_by height.blocks roots pool) },
    ghost backed: { (p : ℕ) → p < 8 → backs (slice_index (fundings_of roots) p) (stage_of (tally pool) p) height.blocks ≡ true },
}
