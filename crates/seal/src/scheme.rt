ghost use Rattle.std.specs.Prelude.{◌≡◌, ℕ};
ghost use Rattle.seal.specs.Seals.{Seals, Signs};
ghost use Rattle.state.specs.declared.state.State.{State};

use state::refusal::Refusal;
use state::state::State;

// A way to seal states. Code above it is proved once, against its meaning.
pub trait Scheme {
    // which pairs of state and seal are good, and how many seals are left
    ghost seals: { Self → Seals };

    // what this scheme says of a seal that it gives, beyond what every scheme does
    ghost gives: { Seals → State → ℕ → Seals → Type 0 };

    // A seal that is good with the state; refused exactly when none is left.
    fn sign(&mut self, state: &State) -> Result<u64, Refusal>
        ensures { Signs gives (seals self.old) state.now result (seals self.new) };

    // Whether the pair is good.
    fn check(&self, state: &State, seal: u64) -> bool
        ensures { result ≡ (seals self.now).good state.now seal };

    // How many seals are left.
    fn left(&self) -> u64
        ensures { result ≡ (seals self.now).left };
}
