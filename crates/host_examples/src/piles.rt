use crate::calls::{Stage, stage_at, state, told};
use account::account::account_of;
use adjudicator::table::Adjudicator;
use factory::factory::Factory;
use frozen::snapshot::Frozen;
use ledger::host::{Host, Ledger};
use ledger::setup::SetUp;

const DELAYS: [u64; 8] = [2; 8];

pub(crate) fn base() -> Adjudicator {
    Adjudicator::new(&SetUp {
        fundings: [1000; 8],
        delays: [2; 8],
    })
}

// A factory over a place.
pub(crate) fn over<B: Host>(below: B, seat: usize) -> Factory<B> {
    Factory::over(below, seat, &DELAYS)
}

// The answer to a factory over a place.
pub(crate) fn checked<B: Host>(below: &B, seat: usize) -> Result<(), u8> {
    told(Factory::check(below, seat, &DELAYS))
}

pub(crate) fn places<L: Ledger>(ledger: &L) -> usize {
    ledger.count()
}

// The sums of parties 0 and 1, and what stands.
pub(crate) fn sums<L: Ledger>(ledger: &L) -> (u128, u128, u128) {
    let account = account_of(ledger);
    (account.paid[0], account.paid[1], account.standing)
}

// Settles a place in a state that gives all to index 0.
pub(crate) fn close<H: Host>(host: &mut H, place: usize) -> bool {
    let posted = host.post(&state(place as u64, 1, 1000, 0)).is_ok();
    let _ = host.advance(2);
    posted && host.settle(place).is_ok()
}

#[test]
fn a_factory_over_a_shut_place(rt: HostRuntime) {
    let one = over(base(), 0);
    assert_eq!(rt; stage_at(&one, 8), Some(Stage::Shut));
    assert_eq!(rt; checked(&one, 8), Ok(()));
    assert_eq!(rt; places(&over(one, 8)), 24);
}

// A factory over a posted place adds no place, and passes calls down.
fn refused() -> [Result<(), u8>; 4] {
    let mut host = base();
    let a = told(host.post(&state(0, 1, 1000, 0)));
    let b = checked(&host, 0);
    let mut none = over(host, 0);
    [
        a,
        b,
        told(none.post(&state(0, 2, 999, 1))),
        told(none.post(&state(8, 1, 0, 0))),
    ]
}

#[test]
fn a_factory_that_is_refused_adds_no_place(rt: HostRuntime) {
    assert_eq!(rt; checked(&base(), 8), Err(20));
    assert_eq!(rt;
        told(Factory::check(&base(), 0, &[2, 2, 2, 1, 2, 2, 2, 2])),
        Err(20)
    );
    assert_eq!(rt; refused(), [Ok(()), Err(20), Ok(()), Err(1)]);
    assert_eq!(rt; checked(&over(base(), 1), 1), Err(20));
}

// A settled place with children pays nothing; and a copy stays as it was.
#[test]
fn an_account_depends_on_the_ledger(rt: HostRuntime) {
    let mut alone = base();
    assert!(rt; close(&mut alone, 0));
    assert_eq!(rt; sums(&alone), (1000, 0, 7000));
    let mut one = over(base(), 0);
    assert!(rt; close(&mut one, 0));
    assert_eq!(rt; sums(&one), (0, 0, 8000));
    let copy = Frozen::of(&one);
    assert!(rt; close(&mut one, 8));
    assert_eq!(rt; sums(&one), (1000, 0, 7000));
    assert_eq!(rt; sums(&copy), (0, 0, 8000));
    assert_eq!(rt; stage_at(&copy, 8), Some(Stage::Open));
    assert_eq!(rt; stage_at(&copy, 16), None);
}
