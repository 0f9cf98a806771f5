// What programs print of answers, places and accounts.
#![tactic(auto)]

use account::tally::Account;
use ledger::view::{Standing, View};
use state::refusal::Refusal;
use std::fmt;

// Figures, each with a space before it.
#[derive(Drop)]
pub struct Spaced<'a, T>(pub &'a [T]);

impl<T: fmt::Display> fmt::Display for Spaced<'_, T> {
    fn fmt<W: fmt::Write>(&self, f: &mut fmt::Formatter<W>) -> fmt::Result {
        for figure in self.0 {
            write!(f, " {figure}")?;
        }
        Ok(())
    }
}

// The answer of a call: `ok`, or `no` with the number of the refusal, and the line of a bad line.
#[derive(Drop)]
pub struct Answer(pub Result<(), Refusal>);

impl fmt::Display for Answer {
    fn fmt<W: fmt::Write>(&self, f: &mut fmt::Formatter<W>) -> fmt::Result {
        match self.0 {
            Ok(()) => write!(f, "ok"),
            Err(Refusal::BadLine(line)) => {
                write!(f, "no {} line {line}", u8::from(Refusal::BadLine(line)))
            }
            Err(refusal) => write!(f, "no {}", u8::from(refusal)),
        }
    }
}

// What a place shows.
#[derive(Drop)]
pub struct Shown(pub View);

impl fmt::Display for Shown {
    fn fmt<W: fmt::Write>(&self, f: &mut fmt::Formatter<W>) -> fmt::Result {
        let view = &self.0;
        match view.parent {
            None => write!(f, "root")?,
            Some(parent) => write!(f, "child of {} index {}", parent.place, parent.index)?,
        }
        write!(f, " delay {} funding {} ", view.delay.blocks, view.funding)?;
        let amounts = Spaced(&view.amounts);
        match view.standing {
            Standing::Shut => write!(f, "shut"),
            Standing::Open => write!(f, "open"),
            Standing::Posted { number, since } => {
                write!(
                    f,
                    "posted {} since {} amounts{amounts}",
                    number.value, since.blocks
                )
            }
            Standing::Settled { number } => write!(f, "settled {} amounts{amounts}", number.value),
        }
    }
}

// What each party was paid, and what still stands.
#[derive(Drop)]
pub struct Paid(pub Account);

impl fmt::Display for Paid {
    fn fmt<W: fmt::Write>(&self, f: &mut fmt::Formatter<W>) -> fmt::Result {
        let paid = Spaced(&self.0.paid);
        write!(f, "paid{paid} standing {}", self.0.standing)
    }
}
