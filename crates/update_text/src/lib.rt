// The update text: a state and its seal as lines of keys and decimal values.
#![tactic(auto)]

pub mod decimal;
mod keys;
mod parse;
mod put;
pub mod read;
pub mod write;
