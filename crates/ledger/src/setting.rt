ghost use Rattle.std.specs.Prelude.{◌≡◌, ℕ, ◌≤◌, true, not, ◌||◌, [], ◌∷◌, map, slice_index, IfOk, nat_lt};
ghost use Rattle.ledger.specs.SetUps.{good_delay, good_delays, good_fundings, set_up_checks, is_good, delay_made, funding_made, figures, new_figures, blocks_of, funding_in, blocks_in, MadeOf};
ghost use Rattle.state.specs.Limits.{max_delay, max_total};
ghost use Rattle.state.specs.Refusals.{answer, first};

use crate::row::Row;
use crate::setup::{SetUp, Terms};
use state::making::MAX_TOTAL;
use state::quantity::{Delay, MAX_DELAY};
use state::refusal::Refusal;

// The delay that 0 stands for in a set-up.
pub const DEFAULT_DELAY: u32 = 144;

// The delay of a place that is made; 20 if a set-up does not take it.
pub fn delay_of(given: u64) -> Result<Delay, Refusal>
    ensures answer { answer result ≡ first ((not (good_delay given), 20) ∷ []) }
    ensures value { IfOk result (λ delay. delay.blocks ≡ delay_made true given) }
{
    if given == 0 {
        return Ok(Delay {
            blocks: DEFAULT_DELAY,
        });
    }
    Delay::new(given).ok_or(Refusal::BadSetUp)
}

// The delays of eight places that are made; 20 if a set-up does not take one of them.
pub fn delays_of(given: &[u64; 8]) -> Result<[Delay; 8], Refusal>
    ensures answer { answer result ≡ first ((not (good_delays given.now), 20) ∷ []) }
    ensures value { IfOk result (λ delays. map blocks_of delays ≡ map (delay_made true) given.now) }
{
    given.try_map(delay_of)
}

// Whether a set-up takes these delays.
pub fn good_delays(given: &[u64; 8]) -> bool
    ensures { result ≡ good_delays given.now }
{
    given.iter().all(|delay| delay_of(*delay).is_ok())
}

// Whether a set-up takes these fundings.
fn good_fundings(given: &[u64; 8]) -> bool
    ensures { result ≡ good_fundings given.now }
{
    given.iter().all(|funding| *funding <= MAX_TOTAL)
}

// The delay of a place that is made; against a bad set-up it is the longest.
pub fn delay_made(good: bool, given: u64) -> Delay
    ensures { result.blocks ≡ delay_made good given }
{
    match delay_of(given) {
        Ok(delay) if good => delay,
        _ => Delay { blocks: MAX_DELAY },
    }
}

// A row that holds no state; against a bad delay it has the longest.
fn row_made(given: u64) -> Row
    ensures { figures result ≡ new_figures true given }
{
    Row::open(delay_made(true, given))
}

// Rows that hold no state; against a bad set-up all have the longest delay.
pub fn rows_made(delays: &[u64; 8], good: bool) -> [Row; 8]
    ensures { map figures result ≡ map (new_figures good) delays.now }
{
    if !good {
        return [Row::open(delay_made(false, 0)); 8];
    }
    delays.map(row_made)
}

// The funding of a root that is made; against a bad one it is 0.
fn funding_made(given: u64) -> u64
    ensures { result ≡ funding_made true given }
{
    if given <= MAX_TOTAL { given } else { 0 }
}

// The fundings of roots that are made; against a bad set-up all are 0.
pub fn fundings_made(fundings: &[u64; 8], good: bool) -> [u64; 8]
    ensures value { result ≡ map (funding_made good) fundings.now }
    ensures capped { (k : ℕ) → slice_index result k ≤ max_total }
{
    if !good {
        return [0; 8];
    }
    fundings.map(funding_made)
}

impl Terms {
    // No funding, and the longest delay.
    fn unfunded() -> Terms
        ensures funding { result.funding ≡ 0 }
        ensures delay { result.delay.blocks ≡ max_delay }
    {
        Terms {
            funding: 0,
            delay: Delay { blocks: MAX_DELAY },
        }
    }

    // The terms of these figures; 20 if the funding is above the limit.
    pub fn new(funding: u64, delay: Delay) -> Result<Terms, Refusal>
        ensures answer { answer result ≡ first ((nat_lt max_total funding, 20) ∷ []) }
        ensures funding { IfOk result (λ terms. terms.funding ≡ funding) }
        ensures delay { IfOk result (λ terms. terms.delay ≡ delay) }
    {
        if funding > MAX_TOTAL {
            return Err(Refusal::BadSetUp);
        }
        Ok(Terms { funding, delay })
    }
}

impl SetUp {
    // The terms of the eight roots; 20 if a funding is above the limit, or a delay is neither 0 nor within the limits.
    pub fn terms(&self) -> Result<[Terms; 8], Refusal>
        ensures answer { answer result ≡ first (set_up_checks self.now) }
        ensures fundings { IfOk result (λ made. map funding_in made ≡ map (funding_made true) self.now.fundings) }
        ensures delays { IfOk result (λ made. map blocks_in made ≡ map (delay_made true) self.now.delays) }
    {
        let mut made = [Terms::unfunded(); 8];
        // by index: tried as a `try_map` over pairs, and the proof did not close
        for i in 0..8 {
            made[i] = Terms::new(self.fundings[i], delay_of(self.delays[i])?)?;
        }
        Ok(made)
    }

    // Whether every figure is one that a set-up takes.
    pub fn is_good(&self) -> bool
        ensures { result ≡ is_good self.now }
    {
        good_fundings(&self.fundings) && good_delays(&self.delays)
    }

    // 20 if a figure is not one that a set-up takes.
    pub fn check(&self) -> Result<(), Refusal>
        ensures { answer result ≡ first (set_up_checks self.now) }
    {
        if !good_fundings(&self.fundings) || !good_delays(&self.delays) {
            return Err(Refusal::BadSetUp);
        }
        Ok(())
    }

    // The terms of the roots that are made; against a bad set-up all fundings are 0 and all delays the longest.
    #[tactic(auto, using(crate::proofs::SettingUp::fundings_are, crate::proofs::SettingUp::delays_are))]
    pub fn made(&self) -> [Terms; 8]
        ensures { MadeOf self.now result }
    {
        self.terms().unwrap_or([Terms::unfunded(); 8])
    }
}
