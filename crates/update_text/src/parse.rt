ghost use Rattle.std.specs.Prelude.{◌≡◌, ◌==◌, position, take, ℕ, List, MatchOption, MatchResult};
ghost use Rattle.state.specs.declared.refusal.Refusal.{Refusal};
ghost use Rattle.state.specs.declared.refusal.Refusal.TheVariants.{BadLine};
ghost use Rattle.update_text.specs.Line.{Begins, FirstBad, HasValue, Values};

use crate::decimal::number;
use crate::keys::{KEYS, LINES};
use state::refusal::Refusal;

// A number has at most 20 digits, so the newline after it is among the first 21 bytes.
const NUMBER_LINE: usize = 21;

// Where the number that `src` begins with can end: at the first newline, if one is near enough.
// No byte after that is looked at, so that a bad line costs no more than a good one.
fn number_end(src: &[u8]) -> Option<usize>
    ensures { result ≡ position (λ b. b == 10) (take 21 src.now) }
{
    let near = &src[..src.len().min(NUMBER_LINE)];
    near.iter().position(|b| *b == b'\n')
}

// The number that `src` begins with and that a newline ends, and the bytes after it.
fn value(src: &[u8]) -> Option<(u64, &[u8])>
    ensures { MatchOption result ((v : ℕ) (rest : List ℕ) → HasValue src.now v rest → ⊥) (λ p. HasValue src.now p.0 p.1.now) }
{
    let end = number_end(src)?;
    let value = number(&src[..end])?;
    Some((value, &src[end + 1..]))
}

// The value of the good line of `key` that `src` begins with, and the bytes after it.
fn line<'a>(src: &'a [u8], key: &[u8]) -> Option<(u64, &'a [u8])>
    ensures { MatchOption result ((v : ℕ) (rest : List ℕ) → Begins key.now src.now v rest → ⊥) (λ p. Begins key.now src.now p.0 p.1.now) }
{
    value(src.strip_prefix(key)?)
}

// The values of the lines that `src` consists of, or else the number of its first bad line.
fn line_values(src: &[u8]) -> Result<[u64; LINES], usize>
    ensures { MatchResult result (λ vs. Values src.now vs) (λ n. FirstBad n src.now) }
{
    let mut values = [0; LINES];
    let mut rest = src;
    // by index: a `zip` with `iter_mut` tells a proof nothing of what was written
    for (i, &key) in KEYS.iter().enumerate() {
        let (value, after) = line(rest, key).ok_or(i + 1)?;
        values[i] = value;
        rest = after;
    }
    if !rest.is_empty() {
        return Err(LINES + 1);
    }
    Ok(values)
}

// The same, with the first bad line as a refusal.
pub(crate) fn values(src: &[u8]) -> Result<[u64; LINES], Refusal>
    ensures { MatchResult result (λ vs. Values src.now vs) (λ e. (n : ℕ) × FirstBad n src.now × (e ≡ BadLine n)) }
{
    line_values(src).map_err(Refusal::BadLine)
}
