ghost use Rattle.std.specs.Prelude.{◌≡◌};
ghost use Rattle.dynamic.specs.Bases.{model_of, pool_of};
ghost use Rattle.ledger.specs.Laws.{Lawful, Untouched};

use crate::base::Base;
use factory::factory::Factory;
use factory::grow::Grow;
use ledger::host::{Host, Ledger};
use state::refusal::Refusal;

// A base host takes no factory: a pile does.
impl Grow for Base {
    ghost rooms = { λ _. 0 };

    ghost pool = { pool_of };

    fn has_room(&self) -> bool {
        false
    }

    fn grow(&mut self, _seat: usize, _delays: &[u64; 8]) -> Result<(), Refusal> {
        Err(Refusal::BadSetUp)
    }

    fn outputs(&self) -> Option<usize> {
        match self {
            Base::Chain(chain) => Some(chain.outputs()),
            Base::Adjudicator(_) => None,
        }
    }
}

// A base host with room for seven factories.
pub type Pile = Factory<Factory<Factory<Factory<Factory<Factory<Factory<Base>>>>>>>;

// A pile of no factory: it is its base host, with room for seven.
pub fn pile(base: Base) -> Pile
    ensures model { ⟦<Pile as Ledger>⟧.model result ≡ model_of base }
    ensures lawful { Lawful (model_of base) → Lawful (⟦<Pile as Ledger>⟧.model result) }
    ensures untouched { Untouched (model_of base) → Untouched (⟦<Pile as Ledger>⟧.model result) }
    ensures rooms { ⟦<Pile as Grow>⟧.rooms result ≡ 7 }
    ensures pool { ⟦<Pile as Grow>⟧.pool result ≡ pool_of base }
{
    let one = Factory::empty(base);
    let two = Factory::empty(one);
    let three = Factory::empty(two);
    let four = Factory::empty(three);
    let five = Factory::empty(four);
    let six = Factory::empty(five);
    Factory::empty(six)
}
