// Lists of calls of a station, with the whole theorem about them.
#![tactic(auto)]

pub mod performing;
