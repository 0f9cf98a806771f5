ghost use Rattle.std.specs.Prelude.{◌≤◌};
ghost use Rattle.state.specs.Limits.{max_total};

use state::quantity::Delay;

// The figures that a base host of eight roots is set up with, of which none is checked yet.
// Two arrays and not one of pairs: a caller writes `delays: [2; 8]`, and a factory takes the delays alone.
#[derive(Clone, Copy, PartialEq, Eq, Debug)]
pub struct SetUp {
    pub fundings: [u64; 8],
    pub delays: [u64; 8],
}

// What a root is made with.
#[derive(Clone, Copy, PartialEq, Eq)]
pub struct Terms {
    pub funding: u64,
    pub delay: Delay,
    ghost capped: { funding ≤ max_total },
}
