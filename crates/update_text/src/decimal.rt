ghost use Rattle.std.specs.Prelude.{◌≡◌, ◌↔◌, ℕ, ◌^◌, ◌<◌, IsTrue, MatchOption, decimal, length, slice_index};

// Whether the digits begin with a zero that is not the whole number.
fn leading_zero(digits: &[u8]) -> bool
    ensures { IsTrue result ↔ ((1 < length digits.now) × (slice_index digits.now 0 ≡ 48)) }
{
    matches!(digits, [b'0', _, ..])
}

// The number that these bytes are the decimal digits of.
// A loop of its own: `from_utf8` and `parse` take half as much time again for a text of small numbers.
pub fn number(digits: &[u8]) -> Option<u64>
    ensures { MatchOption result ((v : ℕ) → v < 2 ^ 64 → digits.now ≡ decimal v → ⊥) (λ v. digits.now ≡ decimal v) }
{
    if digits.is_empty() {
        return None;
    }
    if leading_zero(digits) {
        return None;
    }
    let mut value: u64 = 0;
    for byte in digits {
        if !byte.is_ascii_digit() {
            return None;
        }
        let digit = u64::from(*byte - b'0');
        value = value.checked_mul(10)?.checked_add(digit)?;
    }
    Some(value)
}
