ghost use Rattle.std.specs.Prelude.{◌≡◌};
ghost use Rattle.update_text.specs.Text.{Reads, OneToOne};

use crate::parse::values;
use state::raw::RawState;
use state::refusal::Refusal;
use state::state::State;
use state::update::Update;

// The update that `src` is the text of. A first bad line is told before anything else, and then what making the state refuses.
#[tactic(auto, using(crate::proofs::Reading::one_to_one))]
pub fn read(src: &[u8]) -> Result<Update, Refusal>
    ensures answer { Reads src.now result }
    ensures laws { OneToOne }
{
    let [place, number, a0, a1, a2, a3, a4, a5, a6, a7, seal] = values(src)?;
    let amounts = [a0, a1, a2, a3, a4, a5, a6, a7];
    let state = State::try_from(RawState {
        place,
        number,
        amounts,
    })?;
    Ok(Update { state, seal })
}
