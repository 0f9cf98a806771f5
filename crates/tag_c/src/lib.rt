// Tags for callers in C, over plain numbers.
#![tactic(auto)]

ghost use Rattle.std.specs.Prelude.{◌≡◌};
ghost use Rattle.tag_c.specs.TagC.{raw, answer_number, tag_after};

use seal::tag::tag;
use siphash::Key;
use state::raw::RawState;
use state::state::State;

// Writes the tag of the state of these figures under the key words `k0` and `k1` to `out`, and answers 0.
// Where no state can be made of them, answers the number of the refusal and leaves `out` as it was.
// Key, figures and answer are plain numbers, since the caller is C.
#[unsafe(no_mangle)]
pub extern "C" fn yulvenost_tag(
    k0: u64,
    k1: u64,
    place: u64,
    number: u64,
    amounts: &[u64; 8],
    out: &mut u64,
) -> u8
    ensures answer { result ≡ answer_number (raw place number amounts.now) }
    ensures after { out.new ≡ tag_after k0 k1 (raw place number amounts.now) out.old }
{
    let raw = RawState {
        place,
        number,
        amounts: *amounts,
    };
    match State::try_from(raw) {
        Ok(state) => {
            *out = tag(Key { k0, k1 }, &state);
            0
        }
        Err(refusal) => u8::from(refusal),
    }
}
