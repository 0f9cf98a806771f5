// Scripts for a station: commands, their answers, and the session that answers them.
#![tactic(auto)]

pub mod command;
pub mod fault;
pub mod reply;
pub mod run;
pub mod session;
mod words;
