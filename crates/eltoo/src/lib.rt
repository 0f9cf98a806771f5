// The calls of a station, what they answer and do, runs of calls, and what no run breaks.
#![tactic(auto)]

pub mod answer;
pub mod call;
pub mod turn;
