ghost use Rattle.std.specs.Prelude.{◌≡◌, if◌then◌else◌};
ghost use Rattle.ledger.specs.Steps.{not_newer};
ghost use Rattle.output_chain.specs.Coins.{coin_of, own, spend, stage_in};
ghost use Rattle.output_chain.specs.Pools.{Shows, Pays};

use state::quantity::{Height, StateNumber};
use state::state::State;

// A posted state, and the height since which it stands.
#[derive(Clone, Copy)]
pub struct Posted {
    pub number: StateNumber,
    pub amounts: [u64; 8],
    pub since: Height,
}

// What an output stands for.
#[derive(Clone, Copy)]
pub enum Kind {
    // the place holds no state yet
    Funding,
    // a posted state
    Update(Posted),
    // what one party gets of a settled state
    Payout { index: usize, number: StateNumber },
}

// An unspent output of a place.
#[derive(Clone, Copy)]
pub struct Output {
    pub place: usize,
    pub value: u64,
    pub kind: Kind,
}

// The output of a place that can be spent, and the cell that it is in.
#[derive(Clone, Copy)]
pub(crate) struct Unspent {
    pub(crate) cell: usize,
    pub(crate) output: Output,
}

// What one party of a settled place gets.
#[derive(Clone, Copy)]
pub(crate) struct Payment {
    pub(crate) number: StateNumber,
    pub(crate) value: u64,
}

impl Output {
    // Whether this is the funding or update output of a place.
    pub(crate) fn is_unspent_of(&self, place: usize) -> bool
        ensures { own place spend (coin_of self.now) ≡ (if result then 1 else 0) }
    {
        self.place == place && !matches!(self.kind, Kind::Payout { .. })
    }

    // What an update output shows.
    pub(crate) fn posted(&self) -> Option<Posted>
        ensures { Shows result (stage_in self.now.kind) }
    {
        match self.kind {
            Kind::Update(posted) => Some(posted),
            _ => None,
        }
    }

    // Whether the output holds a state, and one that is as new as this or newer.
    pub(crate) fn holds_as_new(&self, state: &State) -> bool
        ensures { result ≡ not_newer (stage_in self.now.kind) state.now.number.value }
    {
        matches!(self.kind, Kind::Update(posted) if state.number <= posted.number)
    }

    // What this output pays to a party of a place.
    pub(crate) fn payment(&self, place: usize, index: usize) -> Option<Payment>
        ensures { Pays result self.now place index }
    {
        match self.kind {
            Kind::Payout { index: at, number } if self.place == place && at == index => {
                Some(Payment {
                    number,
                    value: self.value,
                })
            }
            _ => None,
        }
    }
}
