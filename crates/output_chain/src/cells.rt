ghost use Rattle.std.specs.Prelude.{◌≡◌, ℕ, ◌+◌, ◌<◌, ◌≤◌, ◌==◌, length, replicate, if◌then◌else◌, is_some, not, None, position, map, sum_by, slice_index, slice_index_or};
ghost use Rattle.std.specs.List.{range_with_len};
ghost use Rattle.ledger.specs.Model.{fresh, done};
ghost use Rattle.output_chain.specs.Coins.{Coin, funding, payout, tally, in_cell, own, spend, each, coin_of, outs, due};
ghost use Rattle.output_chain.specs.Pools.{Paid};

use crate::output::{Kind, Output, Payment, Posted, Unspent};
use state::quantity::StateNumber;
use std::array;

// The cell of the place's funding or update output.
pub(crate) fn find(pool: &[Option<Output>], place: usize) -> Option<usize>
    ensures { result ≡ position (λ cell. in_cell (own place spend) cell == 1) pool.now }
{
    pool.iter().position(|cell| cell.is_some_and(|output| output.is_unspent_of(place)))
}

// How many outputs there are.
pub(crate) fn count(pool: &[Option<Output>]) -> usize
    ensures { result ≡ tally pool.now each }
{
    pool.iter().filter(|cell| cell.is_some()).count()
}

// A free cell.
fn free(pool: &[Option<Output>]) -> Option<usize>
    ensures { result ≡ position (λ cell. not (is_some cell)) pool.now }
{
    pool.iter().position(|cell| cell.is_none())
}

// Makes an output in a free cell.
fn make(pool: &mut [Option<Output>], output: Output)
    requires { tally pool.old each < length pool.old }
    ensures { (f : Coin → ℕ) → tally pool.new f ≡ tally pool.old f + f (coin_of output) }
{
    let cell = free(pool).unwrap();
    pool[cell] = Some(output);
}

// Makes outputs in free cells.
pub(crate) fn make_all(pool: &mut [Option<Output>], outputs: &[Output])
    requires { tally pool.old each + length outputs.now ≤ length pool.old }
    ensures { (f : Coin → ℕ) → tally pool.new f ≡ tally pool.old f + sum_by f (map coin_of outputs.now) }
{
    for output in outputs {
        make(pool, *output);
    }
}

// The payout with an index.
fn payout_at(place: usize, index: usize, number: StateNumber, value: u64) -> Output
    ensures { coin_of result ≡ payout place index number.value value }
{
    Output {
        place,
        value,
        kind: Kind::Payout { index, number },
    }
}

// The eight payouts of a settled state.
fn payouts(place: usize, number: StateNumber, amounts: &[u64; 8]) -> [Output; 8]
    ensures { map coin_of result ≡ outs place 0 (done number.value amounts.now) }
{
    array::from_fn(|index| payout_at(place, index, number, amounts[index]))
}

// The funding outputs of eight roots.
pub(crate) fn funding_outputs(fundings: &[u64; 8]) -> [Output; 8]
    ensures { map coin_of result ≡ map (λ place. funding place (slice_index fundings.now place)) (range_with_len 0 8) }
{
    array::from_fn(|place| Output {
        place,
        value: fundings[place],
        kind: Kind::Funding,
    })
}

// Spends an output and makes the eight payouts of the state that it shows.
pub(crate) fn pay(pool: &mut [Option<Output>], spent: Unspent, posted: &Posted)
    requires there { spent.cell < length pool.old }
    requires full { in_cell each (slice_index_or pool.old spent.cell None) ≡ 1 }
    requires room { tally pool.old each + 7 ≤ length pool.old }
    ensures { (f : Coin → ℕ) → tally pool.new f + in_cell f (slice_index_or pool.old spent.cell None) ≡ tally pool.old f + sum_by f (outs spent.output.place 0 (done posted.now.number.value posted.now.amounts)) }
{
    pool[spent.cell] = None;
    make_all(
        pool,
        &payouts(spent.output.place, posted.number, &posted.amounts),
    );
}

// What the pool pays to a party of a place.
pub(crate) fn paid(pool: &[Option<Output>], place: usize, index: usize) -> Option<Payment>
    ensures { Paid result pool.now place index }
{
    pool.iter().find_map(|cell| cell.and_then(|output| output.payment(place, index)))
}
