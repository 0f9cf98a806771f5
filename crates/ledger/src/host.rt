ghost use Rattle.std.specs.Prelude.{◌≡◌, length};
ghost use Rattle.ledger.specs.Laws.{Laid, Lawful, TwoLaws, StepsKeep, StepsShow};
ghost use Rattle.ledger.specs.Model.{Model, Looks};
ghost use Rattle.ledger.specs.Steps.{Does, post_checks, post_next, settle_checks, settle_next, advance_checks, advance_next};

use crate::view::View;
use state::quantity::Height;
use state::refusal::Refusal;
use state::state::State;

// The most blocks of one advance.
pub const MAX_STEP: u64 = 2_016;

// Whatever can be looked at.
pub trait Ledger {
    // its height, and its places in order
    ghost model: { Self → Model };

    // The present height.
    fn height(&self) -> Height
        ensures { result.blocks ≡ (model self.now).height };

    // How many places there are.
    fn count(&self) -> usize
        ensures { result ≡ length (model self.now).places };

    // What a place shows; 1 for a place that is not there.
    fn view(&self, place: usize) -> Result<View, Refusal>
        ensures { Looks result (model self.now) place };

    // the layout: at most 64 places, parents below their children, all figures within their limits
    ghost laid: { (s : Self) → Laid (model s) };

    // the two laws of what is told, of every ledger that was set up
    ghost two: { (s : Self) → Lawful (model s) → TwoLaws (model s) };
}

// A ledger that can be acted on by three calls. Each does exactly its step, and a refused one changes nothing.
pub trait Host: Ledger {
    // Posts a state at its place: 1, 4, 5, 6, 7.
    fn post(&mut self, state: &State) -> Result<(), Refusal>
        ensures { Does result (Self.Ledger.model self.old) (Self.Ledger.model self.new) (post_checks (Self.Ledger.model self.old) state.now) (post_next (Self.Ledger.model self.old) state.now) };

    // Settles a place that is posted and due: 1, 4, 14, 5, 13.
    fn settle(&mut self, place: usize) -> Result<(), Refusal>
        ensures { Does result (Self.Ledger.model self.old) (Self.Ledger.model self.new) (settle_checks (Self.Ledger.model self.old) place) (settle_next (Self.Ledger.model self.old) place) };

    // Raises the height by 1 to 2,016 blocks: 15, 16.
    fn advance(&mut self, blocks: u64) -> Result<(), Refusal>
        ensures { Does result (Self.Ledger.model self.old) (Self.Ledger.model self.new) (advance_checks (Self.Ledger.model self.old) blocks) (advance_next (Self.Ledger.model self.old) blocks) };

    // every step keeps what a ledger keeps to, changes what the places show as it should, and leaves a settled place for good
    ghost steps: { (s : Self) → Lawful (Self.Ledger.model s) → StepsKeep (Self.Ledger.model s) × StepsShow (Self.Ledger.model s) };
}
