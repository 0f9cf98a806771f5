ghost use Rattle.std.specs.Prelude.{◌≡◌, false};
ghost use Rattle.factory.specs.Extending.{IsChild, ParentIs};
ghost use Rattle.factory.specs.Factories.{model_of};
ghost use Rattle.ledger.specs.Model.{place_at, value_of, PlaceShows};
ghost use Rattle.ledger.specs.Rows.{DoesAt};
ghost use Rattle.ledger.specs.Steps.{is_none};

use crate::factory::Factory;
use ledger::children::share;
use ledger::host::{Host, Ledger};
use ledger::phase::Call;
use ledger::view::{Parent, View};
use state::refusal::Refusal;

impl<B: Host> Factory<B> {
    // The parent of a place that is a child of the seat, with the index that it has there.
    #[tactic(auto, using(crate::proofs::Calling::child_count))]
    pub(crate) fn parent_of(&self, place: usize) -> Option<Parent>
        ensures { ParentIs result self.now.children (B.Ledger.model self.now.below) place }
    {
        let children = self.children.as_ref()?;
        let index = place.checked_sub(self.below.count())?;
        if index >= 8 {
            return None;
        }
        Some(Parent {
            place: children.seat,
            index,
        })
    }

    // The value of a child, none while it is shut. The place is handed on with the parent, since clauses name the child by it.
    #[tactic(auto, using(crate::proofs::Calling::child_value))]
    pub(crate) fn value_at(&self, place: usize, parent: Parent) -> Option<u64>
        requires { IsChild self.now.children (B.Ledger.model self.now.below) place parent }
        ensures { result ≡ value_of (model_of B.Ledger.model self.now) place }
    {
        share(&self.below, parent.place, parent.index)
    }

    // What a child shows.
    pub(crate) fn shown_at(&self, place: usize, parent: Parent) -> View
        requires { IsChild self.now.children (B.Ledger.model self.now.below) place parent }
        ensures { PlaceShows result (value_of (model_of B.Ledger.model self.now) place) (place_at (model_of B.Ledger.model self.now) place) }
    {
        let children = self.children.as_ref().unwrap();
        let row = &children.rows[parent.index];
        let (standing, amounts) = row.shown(self.value_at(place, parent));
        View {
            parent: Some(parent),
            delay: row.delay,
            funding: 0,
            standing,
            amounts,
        }
    }

    // The step of a call at a child, which has a value.
    pub(crate) fn step_at(
        &mut self,
        place: usize,
        parent: Parent,
        call: Call,
    ) -> Result<(), Refusal>
        requires child { IsChild self.old.children (B.Ledger.model self.old.below) place parent }
        requires valued { is_none (value_of (model_of B.Ledger.model self.old) place) ≡ false }
        ensures { DoesAt result (model_of B.Ledger.model self.old) (model_of B.Ledger.model self.new) place call }
    {
        let height = self.below.height();
        let rows = &mut self.children.as_mut().unwrap().rows;
        rows[parent.index].step(call, height)
    }
}
