ghost use Rattle.std.specs.Prelude.{◌≡◌, ◌+◌, ◌≤◌, length};
ghost use Rattle.update_text.specs.Line.{lines, keys};
ghost use Rattle.update_text.specs.Text.{text_of, Writes, OneToOne};

use crate::keys::LINES;
use crate::put::{lines_len, put_lines};
use state::refusal::Refusal;
use state::update::Update;

// The values of an update, in the order of the lines.
#[tactic(auto, unfolding(crate::specs::Text::text_of))]
fn values_of(update: Update) -> [u64; LINES]
    ensures { lines keys result ≡ text_of update }
{
    // the words go before the seal
    let mut values = [update.seal; LINES];
    values[..LINES - 1].copy_from_slice(&update.state.words());
    values
}

// Writes the text of an update into `buf` from `pos` on, and answers the position after it.
// Where the text does not fit from there, nothing is written.
#[tactic(auto, using(crate::proofs::Reading::one_to_one))]
pub fn write(buf: &mut [u8], pos: usize, update: Update) -> Result<usize, Refusal>
    ensures answer { Writes update buf.old pos result buf.new }
    ensures laws { OneToOne }
{
    let values = values_of(update);
    let len = lines_len(&values);
    if pos > buf.len() || len > buf.len() - pos {
        return Err(Refusal::TooSmall);
    }
    Ok(put_lines(buf, pos, &values))
}
