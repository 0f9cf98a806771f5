// Ledgers and hosts: what they mean, the three calls and the laws, and what implementations share.
#![tactic(auto)]

pub mod children;
pub mod host;
pub mod phase;
pub mod rising;
pub mod root;
pub mod roots;
pub mod row;
pub mod rows;
pub mod setting;
pub mod setup;
pub mod view;
