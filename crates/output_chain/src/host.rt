ghost use Rattle.std.specs.Prelude.{◌≡◌};
ghost use Rattle.ledger.specs.Laws.{Lawful, Untouched};
ghost use Rattle.ledger.specs.SetUps.{started};
ghost use Rattle.output_chain.specs.Chains.{model_of};
ghost use Rattle.ledger.proofs.Keeping.{steps_keep};
ghost use Rattle.ledger.proofs.Showing.{steps_show};

use crate::chain::OutputChain;
use ledger::host::Host;
use ledger::phase::Deadline;
use ledger::rising::raised;
use ledger::setup::SetUp;
use state::refusal::Refusal;
use state::state::State;

impl OutputChain {
    // Eight open roots at height 0. Against a bad set-up they have no funding and the longest delay.
    pub fn new(setup: &SetUp) -> OutputChain
        ensures model { model_of result ≡ started setup.now }
        ensures lawful { Lawful (model_of result) }
        ensures untouched { Untouched (model_of result) }
    {
        OutputChain::funded(setup.made())
    }
}

impl Host for OutputChain {
    ghost steps = { λ s law. (steps_keep _ law, steps_show _ law) };

    fn post(&mut self, state: &State) -> Result<(), Refusal> {
        let unspent = self.unspent(state.place)?;
        if state.total() != unspent.output.value {
            return Err(Refusal::WrongTotal);
        }
        if unspent.output.holds_as_new(state) {
            return Err(Refusal::NotNewer);
        }
        let since = self.height;
        self.update(unspent, state, since);
        Ok(())
    }

    fn settle(&mut self, place: usize) -> Result<(), Refusal> {
        let unspent = self.unspent(place)?;
        let posted = unspent.output.posted().ok_or(Refusal::NothingPosted)?;
        let deadline = Deadline::of(posted.since, self.delay_at(unspent));
        if !deadline.is_reached(self.height) {
            return Err(Refusal::TooEarly);
        }
        self.pay_out(unspent, &posted);
        Ok(())
    }

    fn advance(&mut self, blocks: u64) -> Result<(), Refusal> {
        self.height = raised(self.height, blocks)?;
        Ok(())
    }
}
