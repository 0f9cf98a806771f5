ghost use Rattle.std.specs.Prelude.{◌≡◌, ◌<◌, ◌≤◌, sum, MatchOption};

// The sum of the amounts, if it is at most `limit`. No addition can wrap.
pub(crate) fn sum_within(amounts: &[u64; 8], limit: u64) -> Option<u64>
    ensures { MatchOption result (limit < sum amounts.now) (λ t. (t ≡ sum amounts.now) × (t ≤ limit)) }
{
    let mut total = 0;
    for amount in amounts {
        if *amount > limit - total {
            return None;
        }
        total += *amount;
    }
    Some(total)
}
