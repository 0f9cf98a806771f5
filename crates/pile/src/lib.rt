// A base host of either kind with room for seven factories, as one type with a name of its own.
#![tactic(auto)]

pub mod host;
pub mod stack;
