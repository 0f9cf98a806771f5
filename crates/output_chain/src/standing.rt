ghost use Rattle.std.specs.Prelude.{◌≡◌, ◌<◌, false};
ghost use Rattle.ledger.specs.Model.{place_at, value_of, PlaceShows};
ghost use Rattle.ledger.specs.Steps.{is_done};
ghost use Rattle.output_chain.specs.Chains.{model_of, Stands};
ghost use Rattle.output_chain.specs.Coins.{tally, own, spend, number, amount, stage_in, stage_of};

use crate::cells::paid;
use crate::chain::OutputChain;
use crate::index::RootIndex;
use crate::output::{Kind, Output, Payment};
use ledger::view::{Standing, View};
use std::array;

// Where a root stands that has this output to be spent.
fn standing_of(unspent: &Output) -> (Standing, [u64; 8])
    requires { is_done (stage_in unspent.now.kind) ≡ false }
    ensures { Stands result (stage_in unspent.now.kind) }
{
    match unspent.kind {
        Kind::Funding => (Standing::Open, [0; 8]),
        Kind::Update(posted) => {
            let number = posted.number;
            let since = posted.since;
            let amounts = posted.amounts;
            (Standing::Posted { number, since }, amounts)
        }
        Kind::Payout { .. } => unreachable(),
    }
}

impl OutputChain {
    // The payout with an index, of a root that is settled.
    fn payment(&self, root: RootIndex, index: usize) -> Payment
        requires index { index < 8 }
        requires settled { tally self.now.pool (own root.place spend) ≡ 0 }
        ensures number { result.number.value ≡ tally self.now.pool (own root.place number) }
        ensures value { result.value ≡ tally self.now.pool (own root.place (amount index)) }
    {
        paid(&self.pool, root.place, index).unwrap()
    }

    // Where a root stands that has nothing to be spent.
    fn settled(&self, root: RootIndex) -> (Standing, [u64; 8])
        requires { tally self.now.pool (own root.place spend) ≡ 0 }
        ensures { Stands result (stage_of (tally self.now.pool) root.place) }
    {
        let number = self.payment(root, 0).number;
        let amounts = array::from_fn(|index| self.payment(root, index).value);
        (Standing::Settled { number }, amounts)
    }

    // Where a root stands, by its outputs.
    fn standing(&self, root: RootIndex) -> (Standing, [u64; 8])
        ensures { Stands result (stage_of (tally self.now.pool) root.place) }
    {
        match self.spendable(root) {
            Some(unspent) => standing_of(&unspent.output),
            None => self.settled(root),
        }
    }

    // What a root shows.
    pub(crate) fn shown_at(&self, root: RootIndex) -> View
        ensures { PlaceShows result (value_of (model_of self.now) root.place) (place_at (model_of self.now) root.place) }
    {
        let (standing, amounts) = self.standing(root);
        let terms = self.roots[root.place];
        View {
            parent: None,
            delay: terms.delay,
            funding: terms.funding,
            standing,
            amounts,
        }
    }
}
