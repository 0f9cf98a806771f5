ghost use Rattle.std.specs.Prelude.{◌≡◌, ◌<◌, ◌≤◌, ◌⊎◌, MatchOption};
ghost use Rattle.state.specs.Limits.{max_height, min_delay, max_delay, min_number, max_number};

pub const MAX_HEIGHT: u32 = 10_000_000;

pub const MIN_DELAY: u32 = 2;

pub const MAX_DELAY: u32 = 2_016;

pub const MIN_NUMBER: u32 = 1;

pub const MAX_NUMBER: u32 = 1_000_000_000;

// A block height of a ledger.
#[derive(Clone, Copy, PartialEq, Eq, PartialOrd, Ord)]
pub struct Height {
    pub blocks: u32,
    ghost high: { blocks ≤ max_height },
}

// How many blocks a posted state waits until it can be settled.
#[derive(Clone, Copy, PartialEq, Eq, PartialOrd, Ord)]
pub struct Delay {
    pub blocks: u32,
    ghost low: { min_delay ≤ blocks },
    ghost high: { blocks ≤ max_delay },
}

// The number of a state: of two states of a place, the one with the higher number is the newer.
#[derive(Clone, Copy, PartialEq, Eq, PartialOrd, Ord)]
pub struct StateNumber {
    pub value: u32,
    ghost low: { min_number ≤ value },
    ghost high: { value ≤ max_number },
}

// The figure as a 32-bit number, if it is from `LOW` to `HIGH`.
fn within<const LOW: u32, const HIGH: u32>(figure: u64) -> Option<u32>
    ensures { MatchOption result (LOW ≤ figure → HIGH < figure) (λ n. (n ≡ figure) × ((LOW ≤ n) × (n ≤ HIGH))) }
{
    if figure < LOW as u64 || figure > HIGH as u64 {
        return None;
    }
    Some(figure as u32)
}

impl Height {
    // The height of these blocks, if it is within the limit.
    pub fn new(blocks: u64) -> Option<Height>
        ensures { MatchOption result (max_height < blocks) (λ h. h.blocks ≡ blocks) }
    {
        let blocks = within::<0, MAX_HEIGHT>(blocks)?;
        Some(Height { blocks })
    }
}

impl Delay {
    // The delay of these blocks, if it is within the limits.
    pub fn new(blocks: u64) -> Option<Delay>
        ensures { MatchOption result (min_delay ≤ blocks → max_delay < blocks) (λ d. d.blocks ≡ blocks) }
    {
        let blocks = within::<MIN_DELAY, MAX_DELAY>(blocks)?;
        Some(Delay { blocks })
    }
}

impl StateNumber {
    // The state number of this value, if it is within the limits.
    pub fn new(value: u64) -> Option<StateNumber>
        ensures { MatchOption result (min_number ≤ value → max_number < value) (λ n. n.value ≡ value) }
    {
        let value = within::<MIN_NUMBER, MAX_NUMBER>(value)?;
        Some(StateNumber { value })
    }
}
