ghost use Rattle.std.specs.Prelude.{◌≡◌};
ghost use Rattle.script.specs.declared.fault.Fault.TheVariants.{OutOfMemory};

use hex::FromHexError;
use std::alloc::AllocError;
use std::error::Error;
use std::fmt;

// Why a line of a script has no answer. A script ends at its first fault.
#[derive(Clone, Copy, Debug, PartialEq, Eq)]
pub enum Fault {
    NoSuchCommand,
    TooFewWords,
    TooManyWords,
    NotANumber,
    NotHex,
    // the host, the scheme, the station or the copy that the command speaks of
    NotThereYet,
    OutOfMemory,
}

impl fmt::Display for Fault {
    fn fmt<W: fmt::Write>(&self, f: &mut fmt::Formatter<W>) -> fmt::Result {
        f.write_str(match self {
            Fault::NoSuchCommand => "no such command",
            Fault::TooFewWords => "too few words",
            Fault::TooManyWords => "too many words",
            Fault::NotANumber => "not a number",
            Fault::NotHex => "not hex",
            Fault::NotThereYet => "not there yet",
            Fault::OutOfMemory => "out of memory",
        })
    }
}

impl Error for Fault {}

impl From<AllocError> for Fault {
    ghost from_gives = { λ _ fault. fault ≡ OutOfMemory };

    fn from(_error: AllocError) -> Fault {
        Fault::OutOfMemory
    }
}

impl From<FromHexError> for Fault {
    fn from(error: FromHexError) -> Fault {
        match error {
            FromHexError::OutOfMemory => Fault::OutOfMemory,
            _ => Fault::NotHex,
        }
    }
}

// A fault with the line of the script where it stands, counted from 1.
#[derive(Clone, Copy, Debug, PartialEq, Eq)]
pub struct AtLine {
    pub line: u64,
    pub fault: Fault,
}

impl fmt::Display for AtLine {
    fn fmt<W: fmt::Write>(&self, f: &mut fmt::Formatter<W>) -> fmt::Result {
        write!(f, "line {}: {}", self.line, self.fault)
    }
}

impl Error for AtLine {}
