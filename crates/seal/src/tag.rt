ghost use Rattle.std.specs.Prelude.{◌≡◌, ◌-◌, IfOk};
ghost use Rattle.seal.specs.Seals.{Signs};
ghost use Rattle.seal.specs.Tags.{tag_of, tag_seals, tag_meaning, TagGives, set_up_checks};
ghost use Rattle.state.specs.Refusals.{answer, first, Leaves};

use crate::key::{KeyRecord, Wipe};
use crate::scheme::Scheme;
use siphash::{Key, hash_words};
use state::refusal::Refusal;
use state::state::State;

// The most seals that a tag scheme can be set up for.
pub const MAX_LIMIT: u64 = 1_000_000;

// Seals that are tags under a secret key.
#[derive(Drop)]
pub struct TagScheme {
    key: Key,
    left: u64,
}

// The tag of a state under a key.
pub fn tag(key: Key, state: &State) -> u64
    ensures { result ≡ tag_of key.k0 key.k1 state.now }
{
    hash_words(key, &state.words())
}

impl TagScheme {
    // A scheme with the key of the record and so many seals. The record holds zeros afterwards, also where the limit is refused.
    pub fn set_up(key: &mut KeyRecord, limit: u64) -> Result<TagScheme, Refusal>
        ensures wiped { (key.new.k0 ≡ 0) × (key.new.k1 ≡ 0) }
        ensures answer { answer result ≡ first (set_up_checks limit) }
        ensures seals { IfOk result (λ s. tag_meaning s ≡ tag_seals key.old.k0 key.old.k1 limit) }
    {
        let guard = Wipe { key };
        if limit < 1 || limit > MAX_LIMIT {
            return Err(Refusal::BadSetUp);
        }
        Ok(TagScheme {
            key: Key {
                k0: guard.key.k0,
                k1: guard.key.k1,
            },
            left: limit,
        })
    }
}

impl Scheme for TagScheme {
    ghost seals = { tag_meaning };

    ghost gives = { TagGives };

    fn sign(&mut self, state: &State) -> Result<u64, Refusal>
        ensures signs { Signs TagGives (tag_meaning self.old) state.now result (tag_meaning self.new) }
        ensures tag { Leaves result self.old self.new (λ seal. (seal ≡ tag_of self.old.key.k0 self.old.key.k1 state.now) × (tag_meaning self.new ≡ tag_seals self.old.key.k0 self.old.key.k1 (self.old.left - 1))) }
    {
        self.left = self.left.checked_sub(1).ok_or(Refusal::NoSealsLeft)?;
        Ok(tag(self.key, state))
    }

    fn check(&self, state: &State, seal: u64) -> bool {
        seal == tag(self.key, state)
    }

    fn left(&self) -> u64 {
        self.left // what `sign` has not given yet
    }
}
