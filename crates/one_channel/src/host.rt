ghost use Rattle.std.specs.Prelude.{◌≡◌, [], ◌∷◌, IfOk, nat_lt};
ghost use Rattle.ledger.specs.Laws.{Lawful, Untouched};
ghost use Rattle.ledger.specs.SetUps.{open_root};
ghost use Rattle.one_channel.specs.Channels.{model_of};
ghost use Rattle.state.specs.Limits.{max_total};
ghost use Rattle.state.specs.Refusals.{answer, first};
ghost use Rattle.std.proofs.Common.{rules};
ghost use Rattle.ledger.proofs.Keeping.{laws_hold, steps_keep};
ghost use Rattle.ledger.proofs.Showing.{steps_show};

use crate::channel::OneChannel;
use ledger::host::{Host, Ledger};
use ledger::rising::raised;
use ledger::root::Root;
use ledger::setup::Terms;
use ledger::view::View;
use state::quantity::{Delay, Height};
use state::refusal::Refusal;
use state::state::State;

impl Ledger for OneChannel {
    ghost model = { model_of };

    ghost laid = { Prim.search rules };

    ghost two = { λ s law. laws_hold _ law };

    fn height(&self) -> Height {
        self.height // the present one
    }

    fn count(&self) -> usize {
        1 // the channel
    }

    fn view(&self, place: usize) -> Result<View, Refusal> {
        if place != 0 {
            return Err(Refusal::NoSuchPlace);
        }
        Ok(self.root.view())
    }
}

impl Host for OneChannel {
    // every step keeps the laws, whatever the host
    ghost steps = { λ s law. (steps_keep _ law, steps_show _ law) };

    fn post(&mut self, state: &State) -> Result<(), Refusal> {
        if state.place > 0 {
            return Err(Refusal::NoSuchPlace);
        }
        self.root.post(state, self.height)
    }

    fn settle(&mut self, place: usize) -> Result<(), Refusal> {
        if place > 0 {
            return Err(Refusal::NoSuchPlace);
        }
        self.root.settle(self.height)
    }

    fn advance(&mut self, blocks: u64) -> Result<(), Refusal> {
        self.height = raised(self.height, blocks)?;
        Ok(())
    }
}

impl OneChannel {
    // An open channel at height 0; 20 if the funding is above the limit.
    pub fn open(funding: u64, delay: Delay) -> Result<OneChannel, Refusal>
        ensures answer { answer result ≡ first ((nat_lt max_total funding, 20) ∷ []) }
        ensures start { IfOk result (λ c. model_of c ≡ record { height = 0; places = open_root funding delay.blocks ∷ [] }) }
        ensures lawful { IfOk result (λ c. Lawful (model_of c)) }
        ensures untouched { IfOk result (λ c. Untouched (model_of c)) }
    {
        let terms = Terms::new(funding, delay)?;
        Ok(OneChannel {
            height: Height { blocks: 0 },
            root: Root::open(terms),
        })
    }
}
