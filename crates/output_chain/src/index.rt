ghost use Rattle.std.specs.Prelude.{◌≡◌, ◌<◌, ◌≤◌, MatchResult};
ghost use Rattle.state.specs.declared.refusal.Refusal.TheVariants.{NoSuchPlace};

use state::refusal::Refusal;

// The index of one of the eight roots.
#[derive(Clone, Copy)]
pub(crate) struct RootIndex {
    pub(crate) place: usize,
    ghost few: { place < 8 },
}

impl RootIndex {
    // The index of the root at a place, if there is one.
    pub(crate) fn at(place: usize) -> Result<RootIndex, Refusal>
        ensures { MatchResult result (λ root. root.place ≡ place) (λ refusal. (refusal ≡ NoSuchPlace) × (8 ≤ place)) }
    {
        if place >= 8 {
            return Err(Refusal::NoSuchPlace);
        }
        Ok(RootIndex { place })
    }
}
