ghost use Rattle.std.specs.Prelude.{◌≡◌, ℕ, ◌+◌, Option, nat_lt};
ghost use Rattle.factory.specs.Extending.{growing_checks, founded};
ghost use Rattle.factory.specs.Factories.{rooms_of};
ghost use Rattle.ledger.specs.Laws.{Lawful, Untouched};
ghost use Rattle.ledger.specs.Steps.{Does};
ghost use Rattle.state.specs.Refusals.{Leaves};

use crate::factory::Factory;
use ledger::host::{Host, Ledger};
use state::refusal::Refusal;

// A host on which factories can be put in place.
pub trait Grow: Host {
    // how many more can be put on it
    ghost rooms: { Self → ℕ };

    // how many unspent outputs its base host holds, none of one that keeps no outputs
    ghost pool: { Self → Option ℕ };

    // Whether one more factory can be put on it.
    fn has_room(&self) -> bool
        ensures { result ≡ nat_lt 0 (rooms self.now) };

    // Eight places more, the children of the seat, with these delays. 20 if there is no room, or no factory can be made over the seat.
    fn grow(&mut self, seat: usize, delays: &[u64; 8]) -> Result<(), Refusal>
        ensures step { Does result (Self.Ledger.model self.old) (Self.Ledger.model self.new) (growing_checks (nat_lt 0 (rooms self.old)) (Self.Ledger.model self.old) seat delays.now) (founded (Self.Ledger.model self.old) seat delays.now) }
        ensures rooms { Leaves result (rooms self.old) (rooms self.new) (λ _. rooms self.old ≡ rooms self.new + 1) }
        ensures pool { pool self.new ≡ pool self.old }
        ensures lawful { Lawful (Self.Ledger.model self.old) → Lawful (Self.Ledger.model self.new) }
        ensures untouched { Lawful (Self.Ledger.model self.old) → Untouched (Self.Ledger.model self.old) → Untouched (Self.Ledger.model self.new) };

    // How many unspent outputs its base host holds.
    fn outputs(&self) -> Option<usize>
        ensures { result ≡ pool self.now };
}

// A pile fills from the innermost factory on.
impl<B: Grow> Grow for Factory<B> {
    ghost rooms = { λ f. rooms_of B.Grow.rooms f };

    ghost pool = { λ f. B.Grow.pool f.below };

    fn has_room(&self) -> bool {
        self.is_empty()
    }

    fn grow(&mut self, seat: usize, delays: &[u64; 8]) -> Result<(), Refusal> {
        if self.is_empty() && self.below.has_room() {
            return self.below.grow(seat, delays);
        }
        self.found(seat, delays)
    }

    fn outputs(&self) -> Option<usize> {
        self.below.outputs()
    }
}
