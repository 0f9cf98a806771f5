ghost use Rattle.std.specs.Prelude.{◌≡◌, ◌≤◌, ◌∷◌, sum};
ghost use Rattle.state.specs.Limits.{max_place, max_total};
ghost use Rattle.state.specs.Refusals.{answer, first, Leaves};
ghost use Rattle.state.specs.States.{words, raw_words, making_checks, blank_words, Makes};

use crate::quantity::StateNumber;
use crate::raw::RawState;
use crate::refusal::Refusal;
use crate::state::State;
use crate::total::sum_within;

// How many words a state has.
pub const WORDS: usize = 10;

pub const MAX_PLACE: u64 = 63;

pub const MAX_TOTAL: u64 = 2_100_000_000_000_000;

// The state of raw figures, if they are within the limits.
impl TryFrom<RawState> for State {
    type Error = Refusal;

    ghost try_from_gives = { Makes };

    fn try_from(raw: RawState) -> Result<State, Refusal> {
        if raw.place > MAX_PLACE {
            return Err(Refusal::NoSuchPlace);
        }
        let number = StateNumber::new(raw.number).ok_or(Refusal::BadNumber)?;
        sum_within(&raw.amounts, MAX_TOTAL).ok_or(Refusal::OverLimit)?;
        Ok(State {
            place: raw.place as usize,
            number,
            amounts: raw.amounts,
        })
    }
}

impl State {
    // The state that a caller starts from: place 0, number 1 and nothing for anyone.
    pub fn blank() -> State
        ensures { words result ≡ blank_words }
    {
        State {
            place: 0,
            number: StateNumber { value: 1 },
            amounts: [0; 8],
        }
    }

    // Overwrites this state by the raw figures; a refusal leaves it as it was.
    pub fn make(&mut self, raw: RawState) -> Result<(), Refusal>
        ensures answer { answer result ≡ first (making_checks raw) }
        ensures after { Leaves result self.old self.new (λ _. words self.new ≡ raw_words raw) }
    {
        *self = State::try_from(raw)?;
        Ok(())
    }

    // The sum over the eight amounts.
    pub fn total(&self) -> u64
        ensures { result ≡ sum self.now.amounts }
    {
        sum_within(&self.amounts, MAX_TOTAL).unwrap()
    }

    // The words of the state, in the order in which they are sealed and written.
    pub fn words(&self) -> [u64; WORDS]
        ensures { result ≡ words self.now }
    {
        let mut words = [0; WORDS];
        words[0] = self.place as u64;
        words[1] = self.number.value as u64;
        words[2..WORDS].copy_from_slice(&self.amounts);
        words
    }
}
