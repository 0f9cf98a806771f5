ghost use Rattle.std.specs.Prelude.{◌≡◌, ◌<◌, ◌≤◌, None, sum_by, slice_index_or};
ghost use Rattle.output_chain.specs.Chains.{model_of, Holds};
ghost use Rattle.output_chain.specs.Coins.{tally, each};
ghost use Rattle.output_chain.specs.Models.{outputs_of};
ghost use Rattle.output_chain.specs.Laws.{chain_lawful};
ghost use Rattle.ledger.proofs.Keeping.{laws_hold};

use crate::cells::count;
use crate::chain::OutputChain;
use crate::index::RootIndex;
use crate::output::Output;
use ledger::host::Ledger;
use ledger::view::View;
use state::quantity::Height;
use state::refusal::Refusal;

impl Ledger for OutputChain {
    ghost model = { model_of };

    ghost laid = { λ s. (chain_lawful s).laid };

    ghost two = { λ s. laws_hold _ };

    fn height(&self) -> Height {
        self.height
    }

    fn count(&self) -> usize {
        self.roots.len()
    }

    fn view(&self, place: usize) -> Result<View, Refusal> {
        Ok(self.shown_at(RootIndex::at(place)?))
    }
}

impl OutputChain {
    // The output in a cell of the pool, if it is not free.
    pub fn output(&self, cell: usize) -> Option<Output>
        ensures there { cell < 64 → result ≡ slice_index_or self.now.pool cell None }
        ensures past { 64 ≤ cell → result ≡ None }
        ensures pool { Holds self.now }
    {
        *self.pool.get(cell)?
    }

    // How many unspent outputs there are.
    pub fn outputs(&self) -> usize
        ensures count { result ≡ tally self.now.pool each }
        ensures model { result ≡ sum_by each (outputs_of (model_of self.now)) }
    {
        count(&self.pool)
    }
}
