// A station: one host, one seal scheme and one watchtower.
#![tactic(auto)]

pub mod calls;
pub mod looks;
pub mod setting;
pub mod station;
