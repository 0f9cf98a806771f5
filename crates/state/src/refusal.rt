ghost use Rattle.std.specs.Prelude.{◌≡◌, Some};
ghost use Rattle.std.specs.Option.{option_to_list};
ghost use Rattle.state.specs.Names.{named};
ghost use Rattle.state.specs.Refusals.{told};

use std::error::Error;
use std::fmt;

// Why a call was refused. A refused call changes nothing, save that a key record handed in is wiped.
#[derive(Clone, Copy, Debug, PartialEq, Eq)]
pub enum Refusal {
    NoSuchPlace,
    BadNumber,
    OverLimit,
    Shut,
    Settled,
    WrongTotal,
    NotNewer,
    BadSeal,
    InContest,
    ParentNotAgreed,
    AllotmentBound,
    NothingAgreed,
    TooEarly,
    NothingPosted,
    BadStep,
    LastBlock,
    NoSealsLeft,
    // with the number of the first bad line, counted from 1
    BadLine(usize),
    TooSmall,
    BadSetUp,
}

// The number by which a caller knows a refusal.
impl From<Refusal> for u8 {
    ghost from_gives = { λ refusal number. number ≡ (told refusal).0 };

    fn from(refusal: Refusal) -> u8 {
        match refusal {
            Refusal::NoSuchPlace => 1,
            Refusal::BadNumber => 2,
            Refusal::OverLimit => 3,
            Refusal::Shut => 4,
            Refusal::Settled => 5,
            Refusal::WrongTotal => 6,
            Refusal::NotNewer => 7,
            Refusal::BadSeal => 8,
            Refusal::InContest => 9,
            Refusal::ParentNotAgreed => 10,
            Refusal::AllotmentBound => 11,
            Refusal::NothingAgreed => 12,
            Refusal::TooEarly => 13,
            Refusal::NothingPosted => 14,
            Refusal::BadStep => 15,
            Refusal::LastBlock => 16,
            Refusal::NoSealsLeft => 17,
            Refusal::BadLine(_) => 18,
            Refusal::TooSmall => 19,
            Refusal::BadSetUp => 20,
        }
    }
}

impl Refusal {
    // The line that goes with a bad line, and nothing with any other refusal.
    pub fn line(self) -> Option<usize>
        ensures { option_to_list result ≡ (told self).1 }
    {
        match self {
            Refusal::BadLine(line) => Some(line),
            _ => None,
        }
    }
}

// The refusal in words, with the line of a bad line.
impl fmt::Display for Refusal {
    ghost output = { λ refusal. Some (named refusal) };

    fn fmt<W: fmt::Write>(&self, f: &mut fmt::Formatter<W>) -> fmt::Result {
        match self {
            Refusal::NoSuchPlace => f.write_str("no such place"),
            Refusal::BadNumber => f.write_str("bad number"),
            Refusal::OverLimit => f.write_str("over the limit"),
            Refusal::Shut => f.write_str("shut"),
            Refusal::Settled => f.write_str("settled"),
            Refusal::WrongTotal => f.write_str("wrong total"),
            Refusal::NotNewer => f.write_str("not newer"),
            Refusal::BadSeal => f.write_str("bad seal"),
            Refusal::InContest => f.write_str("in contest"),
            Refusal::ParentNotAgreed => f.write_str("parent not agreed"),
            Refusal::AllotmentBound => f.write_str("allotment bound"),
            Refusal::NothingAgreed => f.write_str("nothing agreed"),
            Refusal::TooEarly => f.write_str("too early"),
            Refusal::NothingPosted => f.write_str("nothing posted"),
            Refusal::BadStep => f.write_str("bad step"),
            Refusal::LastBlock => f.write_str("last block"),
            Refusal::NoSealsLeft => f.write_str("no seals left"),
            Refusal::BadLine(line) => write!(f, "bad line, line {line}"),
            Refusal::TooSmall => f.write_str("too small"),
            Refusal::BadSetUp => f.write_str("bad set-up"),
        }
    }
}

impl Error for Refusal {}
