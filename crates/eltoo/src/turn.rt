ghost use Rattle.std.specs.Prelude.{◌≡◌};

use crate::answer::Outcome;
use crate::call::Call;
use state::refusal::Refusal;

// A call in a list of calls, with its answer once it is made.
#[derive(Clone, Copy, PartialEq, Eq)]
pub struct Turn {
    pub call: Call,
    pub answer: Option<Result<Outcome, Refusal>>,
}
