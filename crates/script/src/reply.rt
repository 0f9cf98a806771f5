use account::tally::Account;
use eltoo::answer::{Counts, Outcome};
use ledger::view::View;
use shown::{Answer, Paid, Shown, Spaced};
use state::refusal::Refusal;
use state::state::State;
use state::update::Update;
use std::fmt;

// What a command answers.
#[derive(Drop)]
pub enum Reply {
    Answer(Result<(), Refusal>),
    // the set-up of a tag scheme, with the key record afterwards
    Tagged {
        answer: Result<(), Refusal>,
        k0: u64,
        k1: u64,
    },
    Seal(u64),
    Good(bool),
    Number(u64),
    Nothing,
    Round(Counts),
    Look(View),
    Account(Account),
    Newest(Update),
    Marked(Vec<usize>),
    // the position after a text, and the buffer
    Written {
        end: usize,
        buffer: Vec<u8>,
    },
    Read(Update),
}

impl From<Outcome> for Reply {
    fn from(outcome: Outcome) -> Reply {
        match outcome {
            Outcome::Done => Reply::Answer(Ok(())),
            Outcome::Sealed(seal) => Reply::Seal(seal),
            Outcome::Counted(counts) => Reply::Round(counts),
        }
    }
}

// A state: its place, its number and its amounts.
#[derive(Drop)]
struct Figures<'a>(&'a State);

impl fmt::Display for Figures<'_> {
    fn fmt<W: fmt::Write>(&self, f: &mut fmt::Formatter<W>) -> fmt::Result {
        let state = self.0;
        let amounts = Spaced(&state.amounts);
        write!(f, "{} {}{amounts}", state.place, state.number.value)
    }
}

// Bytes in hex.
#[derive(Drop)]
struct Hex<'a>(&'a [u8]);

impl fmt::Display for Hex<'_> {
    fn fmt<W: fmt::Write>(&self, f: &mut fmt::Formatter<W>) -> fmt::Result {
        for byte in self.0 {
            write!(f, "{byte:02x}")?;
        }
        Ok(())
    }
}

// The places, with one space between two; `none` where there are none.
#[derive(Drop)]
struct Places<'a>(&'a [usize]);

impl fmt::Display for Places<'_> {
    fn fmt<W: fmt::Write>(&self, f: &mut fmt::Formatter<W>) -> fmt::Result {
        match self.0 {
            [] => write!(f, "none"),
            [first, rest @ ..] => write!(f, "{first}{}", Spaced(rest)),
        }
    }
}

impl fmt::Display for Reply {
    fn fmt<W: fmt::Write>(&self, f: &mut fmt::Formatter<W>) -> fmt::Result {
        match self {
            Reply::Answer(answer) => write!(f, "{}", Answer(*answer)),
            Reply::Tagged { answer, k0, k1 } => write!(f, "{} record {k0} {k1}", Answer(*answer)),
            Reply::Seal(seal) => write!(f, "seal {seal}"),
            Reply::Good(good) => f.write_str(if *good { "yes" } else { "not" }),
            Reply::Number(number) => write!(f, "{number}"),
            Reply::Nothing => write!(f, "none"),
            Reply::Round(counts) => {
                let Counts {
                    posts,
                    settlements,
                    refusals,
                } = counts;
                write!(f, "round {posts} {settlements} {refusals}")
            }
            Reply::Look(view) => write!(f, "{}", Shown(*view)),
            Reply::Account(account) => write!(f, "{}", Paid(*account)),
            Reply::Newest(update) => {
                write!(f, "{} seal {}", Figures(&update.state), update.seal)
            }
            Reply::Marked(places) => write!(f, "{}", Places(places.as_slice())),
            Reply::Written { end, buffer } => write!(f, "at {end} {}", Hex(buffer.as_slice())),
            Reply::Read(update) => {
                write!(f, "state {} seal {}", Figures(&update.state), update.seal)
            }
        }
    }
}
