// States of a channel or factory, the quantities they are made of, and the refusals that every call shares.
#![tactic(auto)]

pub mod making;
pub mod quantity;
pub mod raw;
pub mod refusal;
pub mod state;
mod total;
pub mod update;
