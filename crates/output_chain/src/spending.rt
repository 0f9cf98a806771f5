ghost use Rattle.std.specs.Prelude.{◌≡◌, ◌+◌, ◌<◌, ◌≤◌, MatchOption, MatchResult, false, Ok, sum};
ghost use Rattle.ledger.specs.Model.{place_at, holds};
ghost use Rattle.ledger.specs.Steps.{Does, not_newer, post_checks, post_next, settle_checks, settle_next};
ghost use Rattle.output_chain.specs.Chains.{model_of, InCell, NoneLeft, Spends, Refuses};
ghost use Rattle.output_chain.specs.Coins.{stage_in};

use crate::cells::{find, pay};
use crate::chain::OutputChain;
use crate::index::RootIndex;
use crate::output::{Kind, Output, Posted, Unspent};
use state::quantity::{Delay, Height};
use state::refusal::Refusal;
use state::state::State;

impl OutputChain {
    // The funding or update output of a root.
    pub(crate) fn spendable(&self, root: RootIndex) -> Option<Unspent>
        ensures { MatchOption result (NoneLeft self.now root.place) (Spends self.now root.place) }
    {
        let cell = find(&self.pool, root.place)?;
        let output = self.pool[cell].unwrap();
        Some(Unspent { cell, output })
    }

    // The output that a call at a place spends: 1, 5.
    pub(crate) fn unspent(&self, place: usize) -> Result<Unspent, Refusal>
        ensures { MatchResult result (Spends self.now place) (Refuses self.now place) }
    {
        let root = RootIndex::at(place)?;
        self.spendable(root).ok_or(Refusal::Settled)
    }

    // The delay of the root that an output is of.
    pub(crate) fn delay_at(&self, unspent: Unspent) -> Delay
        requires { InCell self.now unspent }
        ensures { result.blocks ≡ (place_at (model_of self.now) unspent.output.place).delay }
    {
        self.roots[unspent.output.place].delay
    }

    // Spends the output of a root and makes an update output of its whole value, which stands since the present height.
    pub(crate) fn update(&mut self, spent: Unspent, state: &State, since: Height)
        requires place { spent.output.place ≡ state.now.place }
        requires spent { InCell self.old spent }
        requires total { sum state.now.amounts ≡ spent.output.value }
        requires newer { not_newer (stage_in spent.output.kind) state.now.number.value ≡ false }
        requires since { since ≡ self.old.height }
        ensures { Does {A = Unit {0}} (Ok tt) (model_of self.old) (model_of self.new) (post_checks (model_of self.old) state.now) (post_next (model_of self.old) state.now) }
    {
        let posted = Posted {
            number: state.number,
            amounts: state.amounts,
            since,
        };
        self.pool[spent.cell] = Some(Output {
            place: state.place,
            value: spent.output.value,
            kind: Kind::Update(posted),
        });
    }

    // Spends the output of a root that is due, and makes its eight payouts.
    pub(crate) fn pay_out(&mut self, spent: Unspent, posted: &Posted)
        requires spent { InCell self.old spent }
        requires shows { stage_in spent.output.kind ≡ holds posted.now.number.value posted.now.since.blocks posted.now.amounts }
        requires due { posted.now.since.blocks + (place_at (model_of self.old) spent.output.place).delay ≤ self.old.height.blocks }
        ensures { Does {A = Unit {0}} (Ok tt) (model_of self.old) (model_of self.new) (settle_checks (model_of self.old) spent.output.place) (settle_next (model_of self.old) spent.output.place) }
    {
        pay(&mut self.pool, spent, posted);
    }
}
