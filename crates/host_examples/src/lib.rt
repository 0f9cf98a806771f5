// Examples of what hosts, factories, copies and the account promise, run as tests.
#![tactic(auto)]

#[cfg(test)]
mod calls;
#[cfg(test)]
mod piles;
#[cfg(test)]
mod seven;
