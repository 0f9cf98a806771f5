ghost use Rattle.std.specs.Prelude.{◌≡◌, Some};
ghost use Rattle.ledger.specs.Model.{PlaceShows};
ghost use Rattle.ledger.specs.Roots.{root};
ghost use Rattle.ledger.specs.SetUps.{open_root};
ghost use Rattle.ledger.specs.Steps.{Does, staged, post_stage_checks, posted_stage, settle_stage_checks, settled_stage};

use crate::phase::Call;
use crate::root::Root;
use crate::row::Row;
use crate::setup::Terms;
use crate::view::View;
use state::quantity::Height;
use state::refusal::Refusal;
use state::state::State;

impl Root {
    // A root that holds no state.
    pub fn open(terms: Terms) -> Root
        ensures { root result ≡ open_root terms.funding terms.delay.blocks }
    {
        Root {
            funding: terms.funding,
            row: Row::open(terms.delay),
        }
    }

    // What the root shows.
    pub fn view(&self) -> View
        ensures { PlaceShows result (Some self.now.funding) (root self.now) }
    {
        let (standing, amounts) = self.row.shown(Some(self.funding));
        View {
            parent: None,
            delay: self.row.delay,
            funding: self.funding,
            standing,
            amounts,
        }
    }

    // Posts a state: 5, 6, 7.
    pub fn post(&mut self, state: &State, height: Height) -> Result<(), Refusal>
        ensures { Does result (root self.old) (root self.new) (post_stage_checks self.old.funding (root self.old).stage state.now) (staged (root self.old) (posted_stage state.now height.blocks)) }
    {
        let value = self.funding;
        self.row.step(
            Call::Post {
                state: *state,
                value,
            },
            height,
        )
    }

    // Settles what is posted and due: 14, 5, 13.
    pub fn settle(&mut self, height: Height) -> Result<(), Refusal>
        ensures { Does result (root self.old) (root self.new) (settle_stage_checks (root self.old).stage (root self.old).delay height.blocks) (staged (root self.old) (settled_stage (root self.old).stage)) }
    {
        self.row.step(Call::Settle, height)
    }
}
