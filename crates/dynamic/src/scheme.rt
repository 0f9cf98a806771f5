ghost use Rattle.dynamic.specs.Schemes.{seals_of, EitherGives};

use seal::register::Register;
use seal::scheme::Scheme;
use seal::tag::TagScheme;
use state::refusal::Refusal;
use state::state::State;

// A seal scheme of either kind.
#[derive(Drop)]
pub enum AnyScheme {
    Register(Register),
    Tag(TagScheme),
}

impl Scheme for AnyScheme {
    ghost seals = { seals_of };

    ghost gives = { EitherGives };

    fn sign(&mut self, state: &State) -> Result<u64, Refusal> {
        match self {
            AnyScheme::Register(register) => register.sign(state),
            AnyScheme::Tag(tags) => tags.sign(state),
        }
    }

    fn check(&self, state: &State, seal: u64) -> bool {
        match self {
            AnyScheme::Register(register) => register.check(state, seal),
            AnyScheme::Tag(tags) => tags.check(state, seal),
        }
    }

    fn left(&self) -> u64 {
        match self {
            AnyScheme::Register(register) => register.left(),
            AnyScheme::Tag(tags) => tags.left(),
        }
    }
}
