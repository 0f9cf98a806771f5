ghost use Rattle.std.specs.Prelude.{◌≡◌};
ghost use Rattle.adjudicator.specs.Tables.{model_of};
ghost use Rattle.ledger.specs.Laws.{Lawful, Untouched};
ghost use Rattle.ledger.specs.SetUps.{MadeOf, started};
ghost use Rattle.ledger.specs.declared.setup.SetUp.{SetUp};

use crate::table::Adjudicator;
use ledger::root::Root;
use ledger::setup::{SetUp, Terms};
use state::quantity::Height;

// Eight open roots with these terms, at height 0.
fn opened(terms: [Terms; 8]) -> Adjudicator
    ensures start { (s : SetUp) → MadeOf s terms → model_of result ≡ started s }
    ensures lawful { (s : SetUp) → MadeOf s terms → Lawful (model_of result) }
    ensures untouched { (s : SetUp) → MadeOf s terms → Untouched (model_of result) }
{
    Adjudicator {
        height: Height { blocks: 0 },
        roots: terms.map(Root::open),
    }
}

impl Adjudicator {
    // Eight open roots at height 0. Against a bad set-up all fundings are 0 and all delays the longest.
    pub fn new(setup: &SetUp) -> Adjudicator
        ensures start { model_of result ≡ started setup.now }
        ensures lawful { Lawful (model_of result) }
        ensures untouched { Untouched (model_of result) }
    {
        opened(setup.made())
    }
}
