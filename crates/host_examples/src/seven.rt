use crate::calls::{Stage, stage_at};
use crate::piles::{base, checked, close, over, places, sums};
use adjudicator::table::Adjudicator;
use ledger::host::{Host, Ledger};
use one_channel::channel::OneChannel;
use state::quantity::Delay;
use std::test::Fail;

// What a pile of seven factories shows while its seats are closed in turn.
#[derive(Clone, Copy, Debug, PartialEq, Eq)]
struct Played {
    places: usize,
    // where place 56 stands before and after
    before: Option<Stage>,
    after: Option<Stage>,
    // how many seats were closed
    closed: usize,
    sums: (u128, u128, u128),
    // the check of an eighth factory over place 56, and the places with it
    eighth: Result<(), u8>,
    places_with_it: usize,
}

// Each factory over the first child of the one before.
const TALL: [usize; 7] = [0, 8, 16, 24, 32, 40, 48];

// Each factory over a root.
const WIDE: [usize; 7] = [0, 1, 2, 3, 4, 5, 6];

// As tall, over one root.
const OVER_ONE: [usize; 7] = [0, 1, 9, 17, 25, 33, 41];

fn play<H: Host + Drop>(pile: H, seats: [usize; 7]) -> Played {
    let mut host = pile;
    let places = places(&host);
    let before = stage_at(&host, 56);
    let closed = seats.iter().filter(|seat| close(&mut host, **seat)).count();
    let after = stage_at(&host, 56);
    let eighth = checked(&host, 56);
    let sums = sums(&host);
    Played {
        places,
        before,
        after,
        closed,
        sums,
        eighth,
        places_with_it: over(host, 56).count(),
    }
}

// One function a factory: a generic function can't call itself at the larger type.
fn seventh<B: Host + Drop>(below: B, seats: [usize; 7]) -> Played {
    play(over(below, seats[6]), seats)
}

fn sixth<B: Host + Drop>(below: B, seats: [usize; 7]) -> Played {
    seventh(over(below, seats[5]), seats)
}

fn fifth<B: Host + Drop>(below: B, seats: [usize; 7]) -> Played {
    sixth(over(below, seats[4]), seats)
}

fn fourth<B: Host + Drop>(below: B, seats: [usize; 7]) -> Played {
    fifth(over(below, seats[3]), seats)
}

fn third<B: Host + Drop>(below: B, seats: [usize; 7]) -> Played {
    fourth(over(below, seats[2]), seats)
}

fn second<B: Host + Drop>(below: B, seats: [usize; 7]) -> Played {
    third(over(below, seats[1]), seats)
}

fn seven<B: Host + Drop>(below: B, seats: [usize; 7]) -> Played {
    second(over(below, seats[0]), seats)
}

// Place 56 opens, every seat is closed, and an eighth factory is refused.
fn expected(places: usize, sums: (u128, u128, u128)) -> Played {
    Played {
        places,
        before: Some(Stage::Shut),
        after: Some(Stage::Open),
        closed: 7,
        sums,
        eighth: Err(20),
        places_with_it: places,
    }
}

#[test]
fn seven_factories_upon_each_other(rt: HostRuntime) {
    assert_eq!(rt; seven(base(), TALL), expected(64, (0, 0, 8000)));
}

#[test]
fn seven_factories_side_by_side(rt: HostRuntime) {
    assert_eq!(rt; seven(base(), WIDE), expected(64, (0, 0, 8000)));
}

// 57 places below are too many for an eighth factory.
#[test]
fn seven_factories_over_one_root(rt: HostRuntime) -> Result<(), Fail> {
    match OneChannel::open(1000, Delay { blocks: 2 }) {
        Err(_) => {
            assert!(rt; false);
            Ok(())
        },
        Ok(root) => {
            assert_eq!(rt; seven(root, OVER_ONE), expected(57, (0, 0, 1000)));
            Ok(())
        },
    }
}
