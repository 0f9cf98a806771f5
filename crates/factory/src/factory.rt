ghost use Rattle.std.specs.Prelude.{◌≡◌, true};
ghost use Rattle.factory.specs.Extending.{fits};

use crate::children::Children;
use ledger::host::Host;

// The host below, and the children that are added to its places.
#[derive(Drop)]
pub struct Factory<B: Host> {
    pub(crate) below: B,
    // none if it was made against a refusal: then it adds no place
    pub(crate) children: Option<Children>,
    ghost seated: { fits children (B.Ledger.model below) ≡ true },
}
