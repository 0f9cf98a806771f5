use crate::base::Base;
use crate::pile::pile;
use crate::scheme::AnyScheme;
use factory::grow::Grow;
use ledger::host::Ledger;
use ledger::setup::SetUp;
use seal::key::KeyRecord;
use seal::register::Register;
use seal::scheme::Scheme;
use seal::tag::TagScheme;
use state::raw::RawState;
use state::refusal::Refusal;
use state::state::State;

const SETUP: SetUp = SetUp {
    fundings: [1000; 8],
    delays: [2; 8],
};

// Each factory over the first child of the one before.
const SEATS: [usize; 7] = [0, 8, 16, 24, 32, 40, 48];

// How many of the seats a host takes a factory over, and its answer to one more.
fn grow_all<G: Grow>(host: &mut G) -> (usize, Result<(), u8>) {
    let taken = SEATS
        .iter()
        .filter(|seat| host.grow(**seat, &[2; 8]).is_ok())
        .count();
    let eighth = host.grow(56, &[2; 8]);
    (taken, eighth.map_err(|refusal| u8::from(refusal)))
}

#[test]
fn a_pile_takes_seven_factories(rt: HostRuntime) {
    let mut chain = pile(Base::chain(&SETUP));
    assert_eq!(rt; grow_all(&mut chain), (7, Err(20)));
    assert_eq!(rt; (chain.count(), chain.outputs()), (64, Some(8)));
    let mut table = pile(Base::adjudicator(&SETUP));
    assert_eq!(rt; grow_all(&mut table), (7, Err(20)));
    assert_eq!(rt; (table.count(), table.outputs()), (64, None));
}

// The state of place 0 with this number, or the blank state.
fn state(number: u64) -> State {
    let raw = RawState {
        place: 0,
        number,
        amounts: [1000, 0, 0, 0, 0, 0, 0, 0],
    };
    State::try_from(raw).unwrap_or(State::blank())
}

// Whether a seal is good with its state and with another one, and how many are left after it.
fn signs<S: Scheme>(scheme: &mut S) -> Result<(bool, bool, u64), Refusal> {
    let seal = scheme.sign(&state(1))?;
    Ok((
        scheme.check(&state(1), seal),
        scheme.check(&state(2), seal),
        scheme.left(),
    ))
}

#[test]
fn a_scheme_of_either_kind_signs_and_checks(rt: HostRuntime) {
    let mut register = AnyScheme::Register(Register::new());
    assert_eq!(rt; signs(&mut register), Ok((true, false, 255)));
    let mut key = KeyRecord { k0: 1, k1: 2 };
    let tags = TagScheme::set_up(&mut key, 10).map(AnyScheme::Tag);
    assert_eq!(rt;
        tags.and_then(|mut tags| signs(&mut tags)),
        Ok((true, false, 9))
    );
}
