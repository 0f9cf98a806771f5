// Seals: the meaning of every scheme, and two schemes, the register and the tags.
#![tactic(auto)]

pub mod key;
pub mod register;
pub mod scheme;
pub mod tag;
