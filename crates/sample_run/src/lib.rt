// A sample run of a station: a factory with two channels, an old state that is posted and answered, claims and settlements.
#![tactic(auto)]

ghost use Rattle.std.specs.Prelude.{◌≡◌};
ghost use Rattle.factory.specs.Factories.{model_of as factory_model};
ghost use Rattle.ledger.specs.Laws.{Lawful, Untouched};
ghost use Rattle.output_chain.specs.Chains.{model_of as chain_model};
ghost use Rattle.sample_run.specs.Sample.{sample_ledger, SampleRun};

use factory::factory::Factory;
use ledger::setup::SetUp;
use output_chain::chain::OutputChain;

// There is such a run from a station over this host.
fn exists(host: &Factory<OutputChain>)
    requires model { factory_model chain_model host.now ≡ sample_ledger }
    requires lawful { Lawful (factory_model chain_model host.now) }
    requires untouched { Untouched (factory_model chain_model host.now) }
    ensures { SampleRun }
{}

// The host of the sample run: an output chain whose first root has 1,500, every delay 4, with a factory over that root.
// From a station over it and an empty register, the run of the sample meets every premise.
pub fn sample_host() -> Factory<OutputChain>
    ensures model { factory_model chain_model result ≡ sample_ledger }
    ensures lawful { Lawful (factory_model chain_model result) }
    ensures untouched { Untouched (factory_model chain_model result) }
    ensures exists { SampleRun }
{
    let setup = SetUp {
        fundings: [1500, 0, 0, 0, 0, 0, 0, 0],
        delays: [4; 8],
    };
    let host = Factory::over(OutputChain::new(&setup), 0, &[4; 8]);
    exists(&host);
    host
}
