use dynamic::pile::Pile;

// A pile of factories. In the types of what holds it, the factories upon each other do not show.
#[derive(Drop)]
pub struct Stack {
    pub(crate) pile: Pile,
}
