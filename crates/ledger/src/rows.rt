ghost use Rattle.std.specs.Prelude.{◌≡◌};
ghost use Rattle.ledger.specs.Model.{seen, status_by, shown_amounts};
ghost use Rattle.ledger.specs.Rows.{stage_of, call_checks, call_next};
ghost use Rattle.ledger.specs.SetUps.{figures, open_figures};
ghost use Rattle.ledger.specs.Steps.{Does, posted_stage};

use crate::phase::{Call, Deadline, Phase};
use crate::row::Row;
use crate::view::Standing;
use state::quantity::{Delay, Height};
use state::refusal::Refusal;
use state::state::State;

impl Row {
    // A row that holds no state.
    pub fn open(delay: Delay) -> Row
        ensures { figures result ≡ open_figures delay.blocks }
    {
        Row {
            delay,
            phase: Phase::Open,
            amounts: [0; 8],
        }
    }

    // What a row of a place of this value shows.
    pub fn shown(&self, value: Option<u64>) -> (Standing, [u64; 8])
        ensures { (seen result.0 result.1 ≡ status_by value (stage_of self.now)) × (result.1 ≡ shown_amounts (status_by value (stage_of self.now))) }
    {
        match self.phase {
            Phase::Open => match value {
                Some(_) => (Standing::Open, [0; 8]),
                None => (Standing::Shut, [0; 8]),
            },
            Phase::Posted { number, deadline } => {
                let since = Height {
                    blocks: deadline.blocks - self.delay.blocks,
                };
                (Standing::Posted { number, since }, self.amounts)
            }
            Phase::Settled { number } => (Standing::Settled { number }, self.amounts),
        }
    }

    // The step of a call; the phase and the call together decide it.
    pub fn step(&mut self, call: Call, height: Height) -> Result<(), Refusal>
        ensures step { Does result (stage_of self.old) (stage_of self.new) (call_checks call (stage_of self.old) self.old.delay.blocks height.blocks) (call_next call (stage_of self.old) height.blocks) }
        ensures delay { self.new.delay ≡ self.old.delay }
    {
        match (&self.phase, call) {
            (Phase::Settled { .. }, _) => Err(Refusal::Settled),
            (Phase::Open, Call::Settle) => Err(Refusal::NothingPosted),
            (Phase::Posted { number, deadline }, Call::Settle) => {
                if !deadline.is_reached(height) {
                    return Err(Refusal::TooEarly);
                }
                self.phase = Phase::Settled { number: *number };
                Ok(())
            }
            (Phase::Open, Call::Post { state, value }) => {
                if state.total() != value {
                    return Err(Refusal::WrongTotal);
                }
                self.hold(&state, height);
                Ok(())
            }
            (Phase::Posted { number, .. }, Call::Post { state, value }) => {
                if state.total() != value {
                    return Err(Refusal::WrongTotal);
                }
                if state.number <= *number {
                    return Err(Refusal::NotNewer);
                }
                self.hold(&state, height);
                Ok(())
            }
        }
    }

    // Shows the state since this height.
    fn hold(&mut self, state: &State, height: Height)
        ensures step { stage_of self.new ≡ posted_stage state.now height.blocks }
        ensures delay { self.new.delay ≡ self.old.delay }
    {
        self.phase = Phase::Posted {
            number: state.number,
            deadline: Deadline::of(height, self.delay),
        };
        self.amounts = state.amounts;
    }
}
