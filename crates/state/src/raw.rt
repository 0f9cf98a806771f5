// The figures of a state as they come from outside, of which none is checked yet.
#[derive(Clone, Copy)]
pub struct RawState {
    pub place: u64,
    pub number: u64,
    pub amounts: [u64; 8],
}
