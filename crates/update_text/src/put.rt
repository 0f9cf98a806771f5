ghost use Rattle.std.specs.Prelude.{◌≡◌, ◌+◌, ◌≤◌, ◌++◌, length, drop, decimal};
ghost use Rattle.update_text.specs.Line.{line as line_of, lines, keys};
ghost use Rattle.update_text.specs.Text.{written};

use crate::keys::{KEYS, LINES};

// How many decimal digits `n` has.
#[tactic(auto, using(crate::proofs::Placing::len_one, crate::proofs::Placing::len_power))]
fn digit_count(n: u64) -> usize
    ensures count { result ≡ length (decimal n) }
    ensures most { result ≤ 20 }
{
    if n < 10 {
        return 1; // the most common, and no logarithm is taken
    }
    n.ilog10() as usize + 1
}

// Fills `out`, which has a place for each digit of `n`, with them.
fn put_decimal(out: &mut [u8], n: u64)
    requires { length out.old ≡ length (decimal n) }
    ensures { out.new ≡ decimal n }
{
    let mut rest = n;
    // by places: `iter_mut().rev()` tells a proof nothing of what was written
    for place in (1..out.len()).rev() {
        out[place] = b'0' + (rest % 10) as u8;
        rest /= 10;
    }
    out[0] = b'0' + rest as u8; // which is one digit
}

// Writes `bytes` at the start of `out`, and says how many they are.
fn put_bytes(out: &mut [u8], bytes: &[u8]) -> usize
    requires { length bytes.now ≤ length out.old }
    ensures len { result ≡ length bytes.now }
    ensures after { out.new ≡ bytes.now ++ drop result out.old }
{
    out[..bytes.len()].copy_from_slice(bytes);
    bytes.len()
}

// Writes the digits of `n` at the start of `out`, and says how many they are.
fn put_number(out: &mut [u8], n: u64) -> usize
    requires { length (decimal n) ≤ length out.old }
    ensures len { result ≡ length (decimal n) }
    ensures after { out.new ≡ decimal n ++ drop result out.old }
{
    let count = digit_count(n);
    put_decimal(&mut out[..count], n);
    count
}

// Writes the line of `key` and `value` at the start of `out`, and says how long it is.
#[tactic(auto, using(crate::proofs::Placing::then_more), unfolding(crate::specs::Line::line))]
fn put_line(out: &mut [u8], key: &[u8], value: u64) -> usize
    requires { length key.now + length (decimal value) + 1 ≤ length out.old }
    ensures len { result ≡ length key.now + length (decimal value) + 1 }
    ensures after { out.new ≡ line_of key.now value ++ drop result out.old }
{
    let a = put_bytes(out, key);
    let b = a + put_number(&mut out[a..], value);
    b + put_bytes(&mut out[b..], b"\n")
}

// The length of the lines of these values.
pub(crate) fn lines_len(values: &[u64; LINES]) -> usize
    ensures { result ≡ length (lines keys values.now) }
{
    let mut len = 0;
    for (key, value) in KEYS.iter().zip(values) {
        len += key.len() + digit_count(*value) + 1;
    }
    len
}

// Writes the lines of these values into `buf` from `pos` on, where they fit, and says where they end.
// Each line writer is lent the part of the buffer from its line on.
pub(crate) fn put_lines(buf: &mut [u8], pos: usize, values: &[u64; LINES]) -> usize
    requires { pos + length (lines keys values.now) ≤ length buf.old }
    ensures end { result ≡ pos + length (lines keys values.now) }
    ensures after { buf.new ≡ written buf.old pos (lines keys values.now) }
{
    let mut at = pos;
    for (key, value) in KEYS.iter().zip(values) {
        at += put_line(&mut buf[at..], key, *value);
    }
    at
}
