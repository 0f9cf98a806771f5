ghost use Rattle.factory.specs.Factories.{model_of};
ghost use Rattle.factory.specs.Laying.{factory_laid};
ghost use Rattle.ledger.proofs.Keeping.{laws_hold, steps_keep};
ghost use Rattle.ledger.proofs.Showing.{steps_show};

use crate::factory::Factory;
use ledger::host::{Host, Ledger};
use ledger::phase::Call;
use ledger::view::View;
use state::quantity::Height;
use state::refusal::Refusal;
use state::state::State;

impl<B: Host> Ledger for Factory<B> {
    ghost model = { model_of B.Ledger.model };

    ghost laid = { λ s. factory_laid s.children (B.Ledger.model s.below) s.seated (B.Ledger.laid s.below) };

    ghost two = { λ s law. laws_hold _ law };

    fn height(&self) -> Height {
        self.below.height()
    }

    #[tactic(auto, using(crate::proofs::Calling::child_count))]
    fn count(&self) -> usize {
        let count = self.below.count();
        match self.children {
            Some(_) => count + 8,
            None => count,
        }
    }

    fn view(&self, place: usize) -> Result<View, Refusal> {
        match self.parent_of(place) {
            Some(parent) => Ok(self.shown_at(place, parent)),
            None => self.below.view(place),
        }
    }
}

impl<B: Host> Host for Factory<B> {
    ghost steps = { λ s law. (steps_keep _ law, steps_show _ law) };

    fn post(&mut self, state: &State) -> Result<(), Refusal> {
        let place = state.place;
        let Some(parent) = self.parent_of(place) else {
            return self.below.post(state);
        };
        let value = self.value_at(place, parent).ok_or(Refusal::Shut)?;
        let state = *state;
        self.step_at(place, parent, Call::Post { state, value })
    }

    fn settle(&mut self, place: usize) -> Result<(), Refusal> {
        let Some(parent) = self.parent_of(place) else {
            return self.below.settle(place);
        };
        self.value_at(place, parent).ok_or(Refusal::Shut)?;
        self.step_at(place, parent, Call::Settle)
    }

    fn advance(&mut self, blocks: u64) -> Result<(), Refusal> {
        self.below.advance(blocks)
    }
}
