ghost use Rattle.std.specs.Prelude.{◌≡◌, length};

use ledger::root::Root;
use state::quantity::Height;

// Eight roots, whose rows keep the deadline of a post in place of the height since which it stands.
#[derive(Drop)]
pub struct Adjudicator {
    pub(crate) height: Height,
    pub(crate) roots: [Root; 8],
    ghost eight: { length roots ≡ 8 },
}
