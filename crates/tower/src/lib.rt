// The watchtower: what is agreed and marked for each place, and its rounds over any host.
#![tactic(auto)]

mod agreeing;
mod marking;
mod rounds;
pub mod tower;
mod visiting;
