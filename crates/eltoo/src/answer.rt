// What a round did.
#[derive(Clone, Copy, Default, PartialEq, Eq, Debug)]
pub struct Counts {
    pub posts: u32,
    pub settlements: u32,
    pub refusals: u32,
}

// What an accepted call of a station answers.
#[derive(Clone, Copy, PartialEq, Eq, Debug)]
pub enum Outcome {
    Done,
    // an agreed state, with its seal
    Sealed(u64),
    // a round
    Counted(Counts),
}
