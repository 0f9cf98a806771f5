ghost use Rattle.std.specs.Prelude.{◌≡◌, ◌<◌, ◌^◌, length, Err};
ghost use Rattle.std.specs.Result.{OkIff};
ghost use Rattle.std.specs.Str.Parse.{AllDigits, digits_value};
ghost use Rattle.script.specs.declared.fault.Fault.TheVariants.{TooFewWords, TooManyWords};

use crate::fault::Fault;
use ledger::setup::SetUp;
use state::raw::RawState;

// The number that a word is the decimal digits of; zeros in front are digits too.
pub(crate) fn number(word: &str) -> Result<u64, Fault>
    ensures { OkIff result (AllDigits 10 word.now × (0 < length word.now) × (digits_value 10 word.now < 2 ^ 64)) (digits_value 10 word.now) }
{
    // `parse` also takes a plus
    if word.starts_with('+') {
        return Err(Fault::NotANumber);
    }
    match word.parse() {
        Ok(number) => Ok(number),
        Err(_) => Err(Fault::NotANumber),
    }
}

// The numbers that exactly `N` words are the digits of.
pub(crate) fn numbers<const N: usize>(words: &[&str]) -> Result<[u64; N], Fault>
    ensures few { length words.now < N → result ≡ Err TooFewWords }
    ensures many { N < length words.now → result ≡ Err TooManyWords }
{
    if words.len() < N {
        return Err(Fault::TooFewWords);
    }
    if words.len() > N {
        return Err(Fault::TooManyWords);
    }
    let mut numbers = [0; N];
    for (slot, word) in numbers.iter_mut().zip(words) {
        *slot = number(*word)?;
    }
    Ok(numbers)
}

// No words at all.
pub(crate) fn nothing(words: &[&str]) -> Result<(), Fault> {
    if words.is_empty() {
        Ok(())
    } else {
        Err(Fault::TooManyWords)
    }
}

// The place that one word numbers.
pub(crate) fn place(words: &[&str]) -> Result<usize, Fault> {
    let [place] = numbers::<1>(words)?;
    Ok(place as usize)
}

// The figures of a state: its place, its number and its amounts.
pub(crate) fn state(words: &[&str]) -> Result<RawState, Fault> {
    let [place, number, a0, a1, a2, a3, a4, a5, a6, a7] = numbers::<10>(words)?;
    Ok(RawState {
        place,
        number,
        amounts: [a0, a1, a2, a3, a4, a5, a6, a7],
    })
}

// The figures of a set-up: eight fundings and eight delays.
pub(crate) fn setup(words: &[&str]) -> Result<SetUp, Fault> {
    let [
        f0,
        f1,
        f2,
        f3,
        f4,
        f5,
        f6,
        f7,
        d0,
        d1,
        d2,
        d3,
        d4,
        d5,
        d6,
        d7,
    ] = numbers::<16>(words)?;
    Ok(SetUp {
        fundings: [f0, f1, f2, f3, f4, f5, f6, f7],
        delays: [d0, d1, d2, d3, d4, d5, d6, d7],
    })
}
