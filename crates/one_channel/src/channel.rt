use ledger::root::Root;
use state::quantity::Height;

// One root, at a height.
#[derive(Drop)]
pub struct OneChannel {
    pub(crate) height: Height,
    pub(crate) root: Root,
}
