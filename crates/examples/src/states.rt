use cases::{Case, perform};
use state::quantity::{Delay, Height, StateNumber};
use state::raw::RawState;
use state::refusal::Refusal;
use state::state::State;
use std::alloc::AllocError;

const LIMIT: u64 = 2_100_000_000_000_000;

fn raw(place: u64, number: u64, amounts: [u64; 8]) -> RawState {
    RawState {
        place,
        number,
        amounts,
    }
}

#[test]
fn edge_cases(rt: HostRuntime) {
    assert_eq!(rt; perform(Case::LastNumber), Ok(()));
    assert_eq!(rt; perform(Case::NumberTooHigh), Err(Refusal::BadNumber));
    assert_eq!(rt; perform(Case::NumberZero), Err(Refusal::BadNumber));
    assert_eq!(rt; perform(Case::FullTotal), Ok(()));
    assert_eq!(rt; perform(Case::TotalTooHigh), Err(Refusal::OverLimit));
}

#[test]
fn checks_are_in_order(rt: HostRuntime) {
    let mut state = State::blank();
    assert_eq!(rt;
        state.make(raw(64, 0, [LIMIT, 1, 0, 0, 0, 0, 0, 0])),
        Err(Refusal::NoSuchPlace)
    );
    assert_eq!(rt;
        state.make(raw(63, 0, [LIMIT, 1, 0, 0, 0, 0, 0, 0])),
        Err(Refusal::BadNumber)
    );
    assert_eq!(rt;
        state.make(raw(63, 1, [LIMIT, 1, 0, 0, 0, 0, 0, 0])),
        Err(Refusal::OverLimit)
    );
    assert_eq!(rt;
        state.make(raw(u64::MAX, u64::MAX, [u64::MAX; 8])),
        Err(Refusal::NoSuchPlace)
    );
}

#[test]
fn amounts_that_wrap_are_over_the_limit(rt: HostRuntime) {
    let mut state = State::blank();
    assert_eq!(rt;
        state.make(raw(0, 1, [0x2000_0000_0000_0000; 8])),
        Err(Refusal::OverLimit)
    );
    assert_eq!(rt;
        state.make(raw(0, 1, [u64::MAX, 1, 0, 0, 0, 0, 0, 0])),
        Err(Refusal::OverLimit)
    );
}

#[test]
fn a_refusal_leaves_the_state(rt: HostRuntime) {
    let mut state = State::blank();
    assert_eq!(rt; state.make(raw(7, 9, [1, 2, 3, 4, 5, 6, 7, 8])), Ok(()));
    assert_eq!(rt; state.make(raw(8, 0, [9; 8])), Err(Refusal::BadNumber));
    assert_eq!(rt; state.words(), [7, 9, 1, 2, 3, 4, 5, 6, 7, 8]);
    assert_eq!(rt; state.total(), 36);
}

#[test]
fn a_state_of_raw_figures(rt: HostRuntime) -> Result<(), Refusal> {
    let state = State::try_from(raw(7, 9, [1, 2, 3, 4, 5, 6, 7, 8]))?;
    assert_eq!(rt; state.words(), [7, 9, 1, 2, 3, 4, 5, 6, 7, 8]);
    assert_eq!(rt;
        State::try_from(raw(64, 9, [0; 8])).err(),
        Some(Refusal::NoSuchPlace)
    );
    Ok(())
}

#[test]
fn the_blank_state(rt: HostRuntime) {
    assert_eq!(rt; State::blank().words(), [0, 1, 0, 0, 0, 0, 0, 0, 0, 0]);
    assert_eq!(rt; State::blank().total(), 0);
}

#[test]
fn limits_of_the_quantities(rt: HostRuntime) {
    assert!(rt; Height::new(0).is_some() && Height::new(10_000_000).is_some());
    assert!(rt; Height::new(10_000_001).is_none() && Height::new(u64::MAX).is_none());
    assert!(rt; Delay::new(2).is_some() && Delay::new(2_016).is_some());
    assert!(rt; Delay::new(1).is_none() && Delay::new(2_017).is_none());
    assert!(rt; StateNumber::new(1).is_some() && StateNumber::new(1_000_000_000).is_some());
    assert!(rt; StateNumber::new(0).is_none() && StateNumber::new(1_000_000_001).is_none());
}

// The numbers and names of docs/STATES.md.
#[test]
fn refusals_have_numbers_and_names(rt: HostRuntime) -> Result<(), AllocError> {
    let table = [
        (Refusal::NoSuchPlace, 1, "no such place"),
        (Refusal::BadNumber, 2, "bad number"),
        (Refusal::OverLimit, 3, "over the limit"),
        (Refusal::Shut, 4, "shut"),
        (Refusal::Settled, 5, "settled"),
        (Refusal::WrongTotal, 6, "wrong total"),
        (Refusal::NotNewer, 7, "not newer"),
        (Refusal::BadSeal, 8, "bad seal"),
        (Refusal::InContest, 9, "in contest"),
        (Refusal::ParentNotAgreed, 10, "parent not agreed"),
        (Refusal::AllotmentBound, 11, "allotment bound"),
        (Refusal::NothingAgreed, 12, "nothing agreed"),
        (Refusal::TooEarly, 13, "too early"),
        (Refusal::NothingPosted, 14, "nothing posted"),
        (Refusal::BadStep, 15, "bad step"),
        (Refusal::LastBlock, 16, "last block"),
        (Refusal::NoSealsLeft, 17, "no seals left"),
        (Refusal::BadLine(3), 18, "bad line, line 3"),
        (Refusal::TooSmall, 19, "too small"),
        (Refusal::BadSetUp, 20, "bad set-up"),
    ];
    for (refusal, number, name) in table {
        assert_eq!(rt; u8::from(refusal), number);
        assert_eq!(rt; format!(in rt.alloc(); "{refusal}")?.as_str(), name);
    }
    assert_eq!(rt; Refusal::BadLine(3).line(), Some(3));
    assert_eq!(rt; Refusal::TooSmall.line(), None);
    Ok(())
}
