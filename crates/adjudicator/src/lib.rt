// The account adjudicator: a host that overwrites one row for each of its eight roots.
#![tactic(auto)]

pub mod host;
pub mod opening;
mod step;
pub mod table;
