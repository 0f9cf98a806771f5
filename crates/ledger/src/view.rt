use state::quantity::{Delay, Height, StateNumber};

// The parent of a place, and the index of the place among the parent's eight children.
#[derive(Clone, Copy, PartialEq, Eq, Debug)]
pub struct Parent {
    pub place: usize,
    pub index: usize,
}

// Where a place stands. The amounts that a posted or settled place shows are beside it in the view.
#[derive(Clone, Copy, PartialEq, Eq)]
pub enum Standing {
    Shut,
    Open,
    Posted { number: StateNumber, since: Height },
    Settled { number: StateNumber },
}

// What a place shows. The amounts are zeros unless it is posted or settled, and the funding of a child is 0.
#[derive(Clone, Copy, PartialEq, Eq)]
pub struct View {
    pub parent: Option<Parent>,
    pub delay: Delay,
    pub funding: u64,
    pub standing: Standing,
    pub amounts: [u64; 8],
}
