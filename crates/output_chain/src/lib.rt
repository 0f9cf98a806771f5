// The output chain: a host that keeps the unspent outputs of its eight roots.
#![tactic(auto)]

mod cells;
pub mod chain;
pub mod host;
mod index;
pub mod look;
pub mod output;
mod setting;
mod spending;
mod standing;
