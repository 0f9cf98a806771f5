use seal::key::KeyRecord;
use seal::register::Register;
use seal::scheme::Scheme;
use seal::tag::TagScheme;
use state::raw::RawState;
use state::refusal::Refusal;
use state::state::State;

// The state of place 0 with this number and last amount.
fn numbered(number: u64, last: u64) -> Result<State, Refusal> {
    State::try_from(RawState {
        place: 0,
        number,
        amounts: [600, 400, 0, 0, 0, 0, 0, last],
    })
}

#[test]
fn a_register_seals_by_rows(rt: HostRuntime) -> Result<(), Refusal> {
    let mut register = Register::new();
    let one = numbered(1, 0)?;
    let two = numbered(2, 0)?;
    assert_eq!(rt; register.left(), 256);
    assert!(rt; !register.check(&State::blank(), 0));
    assert_eq!(rt; register.sign(&one), Ok(0));
    assert_eq!(rt; register.sign(&two), Ok(1));
    assert_eq!(rt; register.sign(&one), Ok(2));
    assert_eq!(rt; register.left(), 253);
    assert!(rt; register.check(&one, 0) && register.check(&one, 2));
    assert!(rt; register.check(&two, 1));
    assert!(rt; !register.check(&one, 1) && !register.check(&one, 3));
    assert!(rt; !register.check(&numbered(1, 1)?, 0));
    assert!(rt;
        !register.check(&State::blank(), 255) && !register.check(&State::blank(), u64::MAX)
    );
    Ok(())
}

#[test]
fn a_full_register_refuses(rt: HostRuntime) -> Result<(), Refusal> {
    let mut register = Register::new();
    for i in 0..256 {
        assert_eq!(rt; register.sign(&numbered(i + 1, 0)?), Ok(i));
    }
    assert_eq!(rt; register.left(), 0);
    assert_eq!(rt; register.sign(&numbered(1, 0)?), Err(Refusal::NoSealsLeft));
    let last = numbered(256, 0)?;
    assert!(rt; register.check(&last, 255) && !register.check(&last, 256));
    Ok(())
}

// SipHash-2-4 of the words 0, 1, 600, 400, 0 .. 0 under the key bytes 00 to 0f, by another implementation.
#[test]
fn tags_are_hashes_of_the_words(rt: HostRuntime) -> Result<(), Refusal> {
    let mut key = KeyRecord {
        k0: 0x0706_0504_0302_0100,
        k1: 0x0f0e_0d0c_0b0a_0908,
    };
    let state = numbered(1, 0)?;
    let mut scheme = TagScheme::set_up(&mut key, 2)?;
    assert!(rt; key.k0 == 0 && key.k1 == 0);
    assert!(rt; scheme.check(&state, 14606077969532684010));
    assert_eq!(rt; scheme.sign(&state), Ok(14606077969532684010));
    assert!(rt; !scheme.check(&numbered(1, 1)?, 14606077969532684010));
    assert_eq!(rt; scheme.left(), 1);
    assert_eq!(rt; scheme.sign(&state), Ok(14606077969532684010));
    assert_eq!(rt; scheme.sign(&state), Err(Refusal::NoSealsLeft));
    assert!(rt; scheme.check(&state, 14606077969532684010));
    Ok(())
}

// What a set-up with this limit is refused with, and whether the key record holds zeros afterwards.
fn set_up(limit: u64) -> (Option<Refusal>, bool) {
    let mut key = KeyRecord { k0: 5, k1: 6 };
    let refused = TagScheme::set_up(&mut key, limit).err();
    (refused, key.k0 == 0 && key.k1 == 0)
}

#[test]
fn limits_of_a_tag_scheme(rt: HostRuntime) {
    assert_eq!(rt; set_up(0), (Some(Refusal::BadSetUp), true));
    assert_eq!(rt; set_up(1), (None, true));
    assert_eq!(rt; set_up(1_000_000), (None, true));
    assert_eq!(rt; set_up(1_000_001), (Some(Refusal::BadSetUp), true));
    assert_eq!(rt; set_up(u64::MAX), (Some(Refusal::BadSetUp), true));
}
