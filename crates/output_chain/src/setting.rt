ghost use Rattle.std.specs.Prelude.{◌≡◌};
ghost use Rattle.ledger.specs.Laws.{Lawful, Untouched};
ghost use Rattle.ledger.specs.SetUps.{MadeOf, started};
ghost use Rattle.ledger.specs.declared.setup.SetUp.{SetUp};
ghost use Rattle.output_chain.specs.Chains.{model_of};
ghost use Rattle.output_chain.specs.Models.{fundings_of};

use crate::cells::{funding_outputs, make_all};
use crate::chain::OutputChain;
use ledger::setup::Terms;
use state::quantity::Height;

// The fundings of the roots.
fn fundings(roots: &[Terms; 8]) -> [u64; 8]
    ensures { result ≡ fundings_of roots.now }
{
    roots.map(|terms| terms.funding)
}

impl OutputChain {
    // Eight open roots at height 0, each with its funding output.
    pub(crate) fn funded(roots: [Terms; 8]) -> OutputChain
        ensures model { (s : SetUp) → MadeOf s roots → model_of result ≡ started s }
        ensures lawful { Lawful (model_of result) }
        ensures untouched { Untouched (model_of result) }
    {
        let mut pool = [None; 64];
        make_all(&mut pool, &funding_outputs(&fundings(&roots)));
        OutputChain {
            height: Height { blocks: 0 },
            roots,
            pool,
        }
    }
}
