use adjudicator::table::Adjudicator;
use output_chain::chain::OutputChain;

// A base host of either kind.
#[derive(Drop)]
pub enum Base {
    Chain(OutputChain),
    Adjudicator(Adjudicator),
}
