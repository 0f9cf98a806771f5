use account::account::account_of;
use adjudicator::table::Adjudicator;
use ledger::host::{Host, Ledger};
use ledger::setup::SetUp;
use ledger::view::Standing;
use output_chain::chain::OutputChain;
use state::raw::RawState;
use state::refusal::Refusal;
use state::state::State;

// An answer, with the number of its refusal.
pub(crate) fn told(answer: Result<(), Refusal>) -> Result<(), u8> {
    answer.map_err(u8::from)
}

// The state of these figures, or the blank state.
pub(crate) fn state(place: u64, number: u64, a0: u64, a1: u64) -> State {
    let raw = RawState {
        place,
        number,
        amounts: [a0, a1, 0, 0, 0, 0, 0, 0],
    };
    State::try_from(raw).unwrap_or(State::blank())
}

// Where a place stands, without the figures.
#[derive(Clone, Copy, Debug, PartialEq, Eq)]
pub(crate) enum Stage {
    Shut,
    Open,
    Posted,
    Settled,
}

impl From<Standing> for Stage {
    fn from(standing: Standing) -> Stage {
        match standing {
            Standing::Shut => Stage::Shut,
            Standing::Open => Stage::Open,
            Standing::Posted { .. } => Stage::Posted,
            Standing::Settled { .. } => Stage::Settled,
        }
    }
}

// Where a place stands, if it is there.
pub(crate) fn stage_at<L: Ledger>(ledger: &L, place: usize) -> Option<Stage> {
    let view = ledger.view(place).ok()?;
    Some(Stage::from(view.standing))
}

// The delay and the funding of a place.
fn terms<L: Ledger>(ledger: &L, place: usize) -> Option<(u32, u64)> {
    let view = ledger.view(place).ok()?;
    Some((view.delay.blocks, view.funding))
}

fn setup(delay: u64) -> SetUp {
    SetUp {
        fundings: [1000; 8],
        delays: [delay; 8],
    }
}

// Posts at 5 with delay 10 and settles at 14 and 15.
fn waits<H: Host>(host: &mut H) -> [Result<(), u8>; 5] {
    let a = told(host.advance(5));
    let b = told(host.post(&state(0, 1, 600, 400)));
    let _ = host.advance(9);
    let c = told(host.settle(0));
    let _ = host.advance(1);
    [a, b, c, told(host.settle(0)), told(host.settle(0))]
}

#[test]
fn a_post_waits_for_its_delay(rt: HostRuntime) {
    let mut host = Adjudicator::new(&setup(10));
    assert_eq!(rt; waits(&mut host), [Ok(()), Ok(()), Err(13), Ok(()), Err(5)]);
}

#[test]
fn the_chain_waits_too(rt: HostRuntime) {
    let mut chain = OutputChain::new(&setup(10));
    assert_eq!(rt; chain.outputs(), 8);
    assert_eq!(rt;
        waits(&mut chain),
        [Ok(()), Ok(()), Err(13), Ok(()), Err(5)]
    );
    assert_eq!(rt; chain.outputs(), 15);
    let mut chain = OutputChain::new(&setup(2));
    assert_eq!(rt;
        last_block(&mut chain),
        [Err(16), Ok(()), Err(16), Ok(()), Err(13)]
    );
}

// Eight roots make 64 payouts, which fill the pool.
#[test]
fn a_full_pool(rt: HostRuntime) {
    let mut chain = OutputChain::new(&setup(2));
    assert!(rt; settle_all(&mut chain));
    assert_eq!(rt; chain.outputs(), 64);
    let account = account_of(&chain);
    assert_eq!(rt; account.paid, [5600, 2400, 0, 0, 0, 0, 0, 0]);
    assert_eq!(rt; account.standing, 0);
}

#[test]
fn a_delay_of_zero_is_144(rt: HostRuntime) {
    let mut host = Adjudicator::new(&setup(0));
    assert_eq!(rt; terms(&host, 3), Some((144, 1000)));
    assert_eq!(rt; told(host.post(&state(3, 1, 1000, 0))), Ok(()));
    assert_eq!(rt; told(host.advance(143)), Ok(()));
    assert_eq!(rt; told(host.settle(3)), Err(13));
    assert_eq!(rt; told(host.advance(1)), Ok(()));
    assert_eq!(rt; told(host.settle(3)), Ok(()));
}

#[test]
fn checks_of_a_host_are_in_order(rt: HostRuntime) {
    let mut host = Adjudicator::new(&setup(2));
    assert_eq!(rt; told(host.post(&state(8, 1, 1000, 0))), Err(1));
    assert_eq!(rt; told(host.post(&state(0, 1, 1000, 1))), Err(6));
    assert_eq!(rt; told(host.settle(0)), Err(14));
    assert_eq!(rt; told(host.settle(8)), Err(1));
    assert_eq!(rt; told(host.post(&state(0, 5, 1000, 0))), Ok(()));
    assert_eq!(rt; told(host.post(&state(0, 5, 1000, 0))), Err(7));
    assert_eq!(rt; told(host.post(&state(0, 4, 999, 2))), Err(6));
    assert_eq!(rt; told(host.advance(2)), Ok(()));
    assert_eq!(rt; told(host.settle(0)), Ok(()));
    assert_eq!(rt; told(host.post(&state(0, 6, 999, 2))), Err(5));
}

#[test]
fn steps_of_the_height(rt: HostRuntime) {
    let mut host = Adjudicator::new(&setup(2));
    assert_eq!(rt; told(host.advance(2_016)), Ok(()));
    assert_eq!(rt; told(host.advance(2_017)), Err(15));
    assert_eq!(rt; told(host.advance(0)), Err(15));
    assert_eq!(rt; told(host.advance(u64::MAX)), Err(15));
    assert_eq!(rt; host.height().blocks, 2_016);
}

// Goes to the last height, posts there, and tries to settle.
fn last_block<H: Host>(host: &mut H) -> [Result<(), u8>; 5] {
    for _ in 0..4_960 {
        let _ = host.advance(2_016);
    }
    let a = told(host.advance(641));
    let b = told(host.advance(640));
    let c = told(host.advance(1));
    let d = told(host.post(&state(0, 1, 1000, 0)));
    [a, b, c, d, told(host.settle(0))]
}

#[test]
fn a_post_in_the_last_block_is_never_due(rt: HostRuntime) {
    let mut host = Adjudicator::new(&setup(2));
    assert_eq!(rt;
        last_block(&mut host),
        [Err(16), Ok(()), Err(16), Ok(()), Err(13)]
    );
    assert_eq!(rt; host.height().blocks, 10_000_000);
}

// Settles all eight roots.
fn settle_all<H: Host>(host: &mut H) -> bool {
    (0..8).all(|place| host.post(&state(place, 1, 700, 300)).is_ok())
        && host.advance(2).is_ok()
        && (0..8).all(|place| host.settle(place).is_ok())
}

#[test]
fn all_roots_settled(rt: HostRuntime) {
    let mut host = Adjudicator::new(&setup(2));
    assert!(rt; settle_all(&mut host));
    let account = account_of(&host);
    assert_eq!(rt; account.paid, [5600, 2400, 0, 0, 0, 0, 0, 0]);
    assert_eq!(rt; account.standing, 0);
}

#[test]
fn a_host_made_against_a_bad_set_up(rt: HostRuntime) {
    let high = SetUp {
        fundings: [1, 2, 3, 4, 5, 6, 7, 2_100_000_000_000_001],
        delays: [2; 8],
    };
    assert_eq!(rt; told(high.check()), Err(20));
    assert_eq!(rt; terms(&Adjudicator::new(&high), 0), Some((2_016, 0)));
    let short = SetUp {
        fundings: [1; 8],
        delays: [2, 2, 2, 2, 2, 2, 2, 1],
    };
    assert_eq!(rt; told(short.check()), Err(20));
    assert_eq!(rt; terms(&Adjudicator::new(&short), 0), Some((2_016, 0)));
    let edge = SetUp {
        fundings: [2_100_000_000_000_000; 8],
        delays: [0, 2, 2_016, 0, 0, 0, 0, 0],
    };
    assert_eq!(rt; told(edge.check()), Ok(()));
    assert_eq!(rt;
        terms(&Adjudicator::new(&edge), 2),
        Some((2_016, 2_100_000_000_000_000))
    );
}
