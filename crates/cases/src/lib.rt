// The edge cases of the rules: proved of the definitions, and performed by the calls.
#![tactic(auto)]

ghost use Rattle.std.specs.Prelude.{◌≡◌, ℕ, [], ◌∷◌};
ghost use Rattle.cases.specs.Cases.{EdgeCases, expected};
ghost use Rattle.state.specs.Refusals.{answer, first};
ghost use Rattle.state.specs.States.{making_checks};

use state::raw::RawState;
use state::refusal::Refusal;
use state::state::State;

#[derive(Clone, Copy, Debug, PartialEq, Eq)]
pub enum Case {
    LastNumber,
    NumberTooHigh,
    NumberZero,
    FullTotal,
    TotalTooHigh,
}

// The answer to making a state of place 0 with this number and first amount.
fn making(number: u64, amount: u64) -> Result<(), Refusal>
    ensures { answer result ≡ first (making_checks (record { place = 0; number = number; amounts = amount ∷ 0 ∷ 0 ∷ 0 ∷ 0 ∷ 0 ∷ 0 ∷ 0 ∷ [] })) }
{
    State::try_from(RawState {
        place: 0,
        number,
        amounts: [amount, 0, 0, 0, 0, 0, 0, 0],
    })?;
    Ok(())
}

// Performs a case, and answers whether it is accepted.
pub fn perform(case: Case) -> Result<(), Refusal>
    ensures answer { answer result ≡ (expected case, []) }
    ensures laws { EdgeCases }
{
    match case {
        Case::LastNumber => making(1_000_000_000, 0),
        Case::NumberTooHigh => making(1_000_000_001, 0),
        Case::NumberZero => making(0, 0),
        Case::FullTotal => making(1, 2_100_000_000_000_000),
        Case::TotalTooHigh => making(1, 2_100_000_000_000_001),
    }
}
