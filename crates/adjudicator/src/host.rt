ghost use Rattle.adjudicator.specs.Tables.{model_of};
ghost use Rattle.std.proofs.Common.{rules};
ghost use Rattle.ledger.proofs.Keeping.{laws_hold, steps_keep};
ghost use Rattle.ledger.proofs.Rooted.{rooted_laid};
ghost use Rattle.ledger.proofs.Showing.{steps_show};

use crate::table::Adjudicator;
use ledger::host::{Host, Ledger};
use ledger::rising::raised;
use ledger::root::Root;
use ledger::view::View;
use state::quantity::Height;
use state::refusal::Refusal;
use state::state::State;

impl Ledger for Adjudicator {
    ghost model = { model_of };

    ghost laid = { λ s. rooted_laid s.height.blocks s.roots s.height.high (Prim.search rules) };

    ghost two = { λ s law. laws_hold _ law };

    fn height(&self) -> Height {
        self.height // since the set-up
    }

    fn count(&self) -> usize {
        self.roots.len() // every place is a root
    }

    fn view(&self, place: usize) -> Result<View, Refusal> {
        self.roots
            .get(place)
            .map(Root::view)
            .ok_or(Refusal::NoSuchPlace)
    }
}

impl Host for Adjudicator {
    ghost steps = { λ s law. (steps_keep _ law, steps_show _ law) };

    fn post(&mut self, state: &State) -> Result<(), Refusal> {
        if state.place >= self.roots.len() {
            return Err(Refusal::NoSuchPlace);
        }
        self.post_at(state)
    }

    fn settle(&mut self, place: usize) -> Result<(), Refusal> {
        if place >= self.roots.len() {
            return Err(Refusal::NoSuchPlace);
        }
        self.settle_at(place)
    }

    fn advance(&mut self, blocks: u64) -> Result<(), Refusal> {
        self.height = raised(self.height, blocks)?;
        Ok(())
    }
}
