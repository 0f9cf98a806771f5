ghost use Rattle.std.specs.Prelude.{◌≡◌, ◌+◌, IfOk};
ghost use Rattle.ledger.specs.Steps.{rise_checks};
ghost use Rattle.state.specs.Refusals.{answer, first};

use crate::host::MAX_STEP;
use state::quantity::Height;
use state::refusal::Refusal;

// The height that is 1 to 2,016 blocks above this one: 15, 16.
pub fn raised(height: Height, blocks: u64) -> Result<Height, Refusal>
    ensures answer { answer result ≡ first (rise_checks height.blocks blocks) }
    ensures value { IfOk result (λ next. next.blocks ≡ height.blocks + blocks) }
{
    if blocks == 0 || blocks > MAX_STEP {
        return Err(Refusal::BadStep);
    }
    Height::new(height.blocks as u64 + blocks).ok_or(Refusal::LastBlock)
}
