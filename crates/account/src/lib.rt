// The account of a ledger: what each party was paid, and what still stands.
#![tactic(auto)]

pub mod account;
mod parts;
pub mod tally;
