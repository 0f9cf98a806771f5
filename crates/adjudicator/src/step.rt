ghost use Rattle.std.specs.Prelude.{◌≡◌, ◌<◌};
ghost use Rattle.adjudicator.specs.Tables.{model_of};
ghost use Rattle.ledger.specs.Steps.{Does, post_checks, post_next, settle_checks, settle_next};

use crate::table::Adjudicator;
use state::refusal::Refusal;
use state::state::State;

impl Adjudicator {
    // The post of a state whose place is there.
    pub(crate) fn post_at(&mut self, state: &State) -> Result<(), Refusal>
        requires { state.now.place < 8 }
        ensures { Does result (model_of self.old) (model_of self.new) (post_checks (model_of self.old) state.now) (post_next (model_of self.old) state.now) }
    {
        let height = self.height;
        let roots = &mut self.roots;
        roots[state.place].post(state, height)
    }

    // The settlement of a place that is there.
    pub(crate) fn settle_at(&mut self, place: usize) -> Result<(), Refusal>
        requires { place < 8 }
        ensures { Does result (model_of self.old) (model_of self.new) (settle_checks (model_of self.old) place) (settle_next (model_of self.old) place) }
    {
        let height = self.height;
        let roots = &mut self.roots;
        roots[place].settle(height)
    }
}
