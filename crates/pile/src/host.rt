ghost use Rattle.std.specs.Prelude.{◌≡◌};
ghost use Rattle.dynamic.specs.Bases.{model_of, pool_of};
ghost use Rattle.dynamic.specs.Laying.{base_laid};
ghost use Rattle.factory.specs.Laying.{factory_laid};
ghost use Rattle.ledger.proofs.Keeping.{laws_hold, steps_keep};
ghost use Rattle.ledger.proofs.Showing.{steps_show};
ghost use Rattle.ledger.specs.Laws.{Lawful, Untouched};

use crate::stack::Stack;
use dynamic::base::Base;
use dynamic::pile::{Pile, pile};
use factory::grow::Grow;
use ledger::host::{Host, Ledger};
use ledger::view::View;
use state::quantity::Height;
use state::refusal::Refusal;
use state::state::State;

impl Stack {
    // The pile of no factory on a base host.
    pub fn over(base: Base) -> Stack
        ensures model { ⟦<Stack as Ledger>⟧.model result ≡ model_of base }
        ensures lawful { Lawful (model_of base) → Lawful (⟦<Stack as Ledger>⟧.model result) }
        ensures untouched { Untouched (model_of base) → Untouched (⟦<Stack as Ledger>⟧.model result) }
        ensures rooms { ⟦<Stack as Grow>⟧.rooms result ≡ 7 }
        ensures pool { ⟦<Stack as Grow>⟧.pool result ≡ pool_of base }
    {
        Stack { pile: pile(base) }
    }
}

impl Ledger for Stack {
    ghost model = { λ s. ⟦<Pile as Ledger>⟧.model s.pile };

    ghost laid = { λ s. factory_laid s.pile.children _ s.pile.seated (factory_laid s.pile.below.children _ s.pile.below.seated (factory_laid s.pile.below.below.children _ s.pile.below.below.seated (factory_laid s.pile.below.below.below.children _ s.pile.below.below.below.seated (factory_laid s.pile.below.below.below.below.children _ s.pile.below.below.below.below.seated (factory_laid s.pile.below.below.below.below.below.children _ s.pile.below.below.below.below.below.seated (factory_laid s.pile.below.below.below.below.below.below.children _ s.pile.below.below.below.below.below.below.seated (base_laid s.pile.below.below.below.below.below.below.below))))))) };

    ghost two = { λ s law. laws_hold _ law };

    fn height(&self) -> Height {
        self.pile.height()
    }

    fn count(&self) -> usize {
        self.pile.count()
    }

    fn view(&self, place: usize) -> Result<View, Refusal> {
        self.pile.view(place)
    }
}

impl Host for Stack {
    ghost steps = { λ s law. (steps_keep _ law, steps_show _ law) };

    fn post(&mut self, state: &State) -> Result<(), Refusal> {
        self.pile.post(state)
    }

    fn settle(&mut self, place: usize) -> Result<(), Refusal> {
        self.pile.settle(place)
    }

    fn advance(&mut self, blocks: u64) -> Result<(), Refusal> {
        self.pile.advance(blocks)
    }
}

impl Grow for Stack {
    ghost rooms = { λ s. ⟦<Pile as Grow>⟧.rooms s.pile };

    ghost pool = { λ s. ⟦<Pile as Grow>⟧.pool s.pile };

    fn has_room(&self) -> bool {
        self.pile.has_room()
    }

    fn grow(&mut self, seat: usize, delays: &[u64; 8]) -> Result<(), Refusal> {
        self.pile.grow(seat, delays)
    }

    fn outputs(&self) -> Option<usize> {
        self.pile.outputs()
    }
}
