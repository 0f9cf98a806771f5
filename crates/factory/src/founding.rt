ghost use Rattle.std.specs.Prelude.{◌≡◌, true, false, not, [], ◌∷◌, map, IfOk};
ghost use Rattle.factory.specs.Extending.{founding_checks, growing_checks, founded, Founds};
ghost use Rattle.factory.specs.Factories.{model_of, is_empty};
ghost use Rattle.ledger.specs.Laws.{Lawful, Untouched};
ghost use Rattle.ledger.specs.Model.{status, shows_state};
ghost use Rattle.ledger.specs.SetUps.{good_delays, figures, new_figures};
ghost use Rattle.ledger.specs.Steps.{Does};
ghost use Rattle.state.specs.Refusals.{answer, first, Leaves};

use crate::children::Children;
use crate::factory::Factory;
use ledger::children::has_children;
use ledger::host::{Host, Ledger};
use ledger::row::Row;
use ledger::setting::delays_of;
use ledger::view::Standing;
use state::refusal::Refusal;

// The most places below a factory.
const MAX_BELOW: usize = 56;

// Whether a place is posted or settled.
fn shows_state<L: Ledger>(below: &L, seat: usize) -> bool
    ensures { result ≡ shows_state (status (L.Ledger.model below.now) seat) }
{
    below.view(seat).is_ok_and(|view| {
        matches!(
            view.standing,
            Standing::Posted { .. } | Standing::Settled { .. }
        )
    })
}

// Rows that hold no state, with these delays.
fn open_rows(delays: &[u64; 8]) -> Result<[Row; 8], Refusal>
    ensures answer { answer result ≡ first ((not (good_delays delays.now), 20) ∷ []) }
    ensures rows { IfOk result (λ rows. map figures rows ≡ map (new_figures true) delays.now) }
{
    Ok(delays_of(delays)?.map(Row::open))
}

// The children of a seat. 20 if the seat is no place below, has children, or is posted or settled; if a delay is bad; or if there is no room for eight places more.
fn children<L: Ledger>(below: &L, seat: usize, delays: &[u64; 8]) -> Result<Children, Refusal>
    ensures answer { answer result ≡ first (founding_checks (L.Ledger.model below.now) seat delays.now) }
    ensures made { Founds result (L.Ledger.model below.now) seat delays.now }
{
    let count = below.count();
    if seat >= count || has_children(below, seat) || shows_state(below, seat) || count > MAX_BELOW {
        return Err(Refusal::BadSetUp);
    }
    let rows = open_rows(delays)?;
    Ok(Children { seat, rows })
}

impl<B: Host> Factory<B> {
    // 20 if no factory can be made over this seat with these delays.
    pub fn check(below: &B, seat: usize, delays: &[u64; 8]) -> Result<(), Refusal>
        ensures { answer result ≡ first (founding_checks (B.Ledger.model below.now) seat delays.now) }
    {
        children(below, seat, delays)?;
        Ok(())
    }

    // Eight places more, the children of the seat, with these delays. Against a refusal of `check`, a factory that adds no place.
    #[tactic(auto, using(crate::proofs::Making::made_start, crate::proofs::Making::made_lawful, crate::proofs::Making::made_untouched))]
    pub fn over(below: B, seat: usize, delays: &[u64; 8]) -> Factory<B>
        ensures below { result.below ≡ below }
        ensures start { model_of B.Ledger.model result ≡ founded (B.Ledger.model below) seat delays.now }
        ensures lawful { Lawful (B.Ledger.model below) → Lawful (model_of B.Ledger.model result) }
        ensures untouched { Lawful (B.Ledger.model below) → Untouched (B.Ledger.model below) → Untouched (model_of B.Ledger.model result) }
    {
        let children = children(&below, seat, delays).ok();
        Factory { below, children }
    }

    // A factory that adds no place.
    pub fn empty(below: B) -> Factory<B>
        ensures below { result.below ≡ below }
        ensures empty { is_empty result ≡ true }
        ensures start { model_of B.Ledger.model result ≡ B.Ledger.model below }
        ensures lawful { Lawful (B.Ledger.model below) → Lawful (model_of B.Ledger.model result) }
        ensures untouched { Untouched (B.Ledger.model below) → Untouched (model_of B.Ledger.model result) }
    {
        Factory {
            below,
            children: None,
        }
    }

    // Whether it adds no place.
    pub fn is_empty(&self) -> bool
        ensures { result ≡ is_empty self.now }
    {
        self.children.is_none()
    }

    // Eight places more, the children of the seat, with these delays. 20 if it has children already, or against a refusal of `check`.
    #[tactic(auto, using(crate::proofs::Making::found_start, crate::proofs::Making::found_lawful, crate::proofs::Making::found_untouched))]
    pub fn found(&mut self, seat: usize, delays: &[u64; 8]) -> Result<(), Refusal>
        ensures step { Does result (model_of B.Ledger.model self.old) (model_of B.Ledger.model self.new) (growing_checks (is_empty self.old) (B.Ledger.model self.old.below) seat delays.now) (founded (B.Ledger.model self.old.below) seat delays.now) }
        ensures below { self.new.below ≡ self.old.below }
        ensures full { Leaves result (is_empty self.old) (is_empty self.new) (λ _. is_empty self.new ≡ false) }
        ensures lawful { Lawful (model_of B.Ledger.model self.old) → Lawful (model_of B.Ledger.model self.new) }
        ensures untouched { Lawful (model_of B.Ledger.model self.old) → Untouched (model_of B.Ledger.model self.old) → Untouched (model_of B.Ledger.model self.new) }
    {
        if !self.is_empty() {
            return Err(Refusal::BadSetUp);
        }
        self.children = Some(children(&self.below, seat, delays)?);
        Ok(())
    }
}
