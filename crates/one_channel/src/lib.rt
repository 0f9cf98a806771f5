// A host of one root, as small as a host can be: the worked example of the makers' guide.
#![tactic(auto)]

pub mod channel;
pub mod host;
