// Tests of scripts: what a fault says, and that it names its line.
#![tactic(auto)]

#[cfg(test)]
mod faults;
