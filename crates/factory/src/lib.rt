// Factories: a host over any host, which adds eight children of one of its places.
#![tactic(auto)]

mod child;
mod children;
pub mod factory;
pub mod founding;
pub mod grow;
pub mod host;
