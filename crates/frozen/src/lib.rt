// A frozen copy of any ledger, which can be looked at and not acted on.
#![tactic(auto)]

pub mod copy;
pub mod snapshot;
