// Examples of what the crates promise, run as tests.
#![tactic(auto)]

#[cfg(test)]
mod seals;
#[cfg(test)]
mod states;
#[cfg(test)]
mod texts;
