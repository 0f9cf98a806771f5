use crate::fault::Fault;
use crate::words::{nothing, number, numbers, place, setup, state};
use ledger::setup::SetUp;
use siphash::Key;
use state::raw::RawState;
use std::alloc::Global;

// A line of a script. The figures are as they stand there, and none is checked yet.
#[derive(Drop)]
pub enum Command {
    Chain(SetUp),
    Adjudicator(SetUp),
    Factory { place: usize, delays: [u64; 8] },
    Register,
    Tag { k0: u64, k1: u64, limit: u64 },
    Sign(RawState),
    Good { state: RawState, seal: u64 },
    Left,
    HostPost(RawState),
    HostSettle(usize),
    HostAdvance(u64),
    Station,
    Agree(RawState),
    Claim(usize),
    Post { state: RawState, seal: u64 },
    Settle(usize),
    Advance(u64),
    Round,
    Look(usize),
    Height,
    Places,
    Outputs,
    Account,
    Newest(usize),
    Marked,
    Copy,
    CopyLook(usize),
    CopyAccount,
    Make(RawState),
    Write(Writing),
    Read(Vec<u8>),
    Sip { key: Key, bytes: Vec<u8> },
}

// An update to write, into a buffer of this size and from this position on.
#[derive(Clone, Copy)]
pub struct Writing {
    pub state: RawState,
    pub seal: u64,
    pub size: usize,
    pub position: usize,
}

// A state and its seal.
fn sealed(words: &[&str]) -> Result<(RawState, u64), Fault> {
    let Some((last, words)) = words.split_last() else {
        return Err(Fault::TooFewWords);
    };
    Ok((state(words)?, number(*last)?))
}

// An update, a size and a position.
fn to_write(words: &[&str]) -> Result<Writing, Fault> {
    let [
        place,
        number,
        a0,
        a1,
        a2,
        a3,
        a4,
        a5,
        a6,
        a7,
        seal,
        size,
        position,
    ] = numbers::<13>(words)?;
    Ok(Writing {
        state: RawState {
            place,
            number,
            amounts: [a0, a1, a2, a3, a4, a5, a6, a7],
        },
        seal,
        size: size as usize,
        position: position as usize,
    })
}

// The place and the delays of a factory.
fn factory(words: &[&str]) -> Result<Command, Fault> {
    let [place, d0, d1, d2, d3, d4, d5, d6, d7] = numbers::<9>(words)?;
    Ok(Command::Factory {
        place: place as usize,
        delays: [d0, d1, d2, d3, d4, d5, d6, d7],
    })
}

// The key and the limit of a tag scheme.
fn tag(words: &[&str]) -> Result<Command, Fault> {
    let [k0, k1, limit] = numbers::<3>(words)?;
    Ok(Command::Tag { k0, k1, limit })
}

// The bytes that at most one word is the hex of; no word is no bytes.
fn bytes(alloc: Global, words: &[&str]) -> Result<Vec<u8>, Fault> {
    match words {
        [] => Ok(Vec::new(alloc)),
        [word] => Ok(hex::decode(alloc, *word)?),
        _ => Err(Fault::TooManyWords),
    }
}

// The key and the bytes of a hash.
fn sip(alloc: Global, words: &[&str]) -> Result<Command, Fault> {
    let [k0, k1, rest @ ..] = words else {
        return Err(Fault::TooFewWords);
    };
    let key = Key {
        k0: number(*k0)?,
        k1: number(*k1)?,
    };
    let bytes = bytes(alloc, rest)?;
    Ok(Command::Sip { key, bytes })
}

// The command of one number.
fn figure(words: &[&str]) -> Result<u64, Fault> {
    let [figure] = numbers::<1>(words)?;
    Ok(figure)
}

// The command of this name with these words after it.
fn named(alloc: Global, name: &str, words: &[&str]) -> Result<Command, Fault> {
    match name {
        "chain" => Ok(Command::Chain(setup(words)?)),
        "adjudicator" => Ok(Command::Adjudicator(setup(words)?)),
        "factory" => factory(words),
        "tag" => tag(words),
        "sign" => Ok(Command::Sign(state(words)?)),
        "good" => {
            let (state, seal) = sealed(words)?;
            Ok(Command::Good { state, seal })
        }
        "host-post" => Ok(Command::HostPost(state(words)?)),
        "host-settle" => Ok(Command::HostSettle(place(words)?)),
        "host-advance" => Ok(Command::HostAdvance(figure(words)?)),
        "agree" => Ok(Command::Agree(state(words)?)),
        "claim" => Ok(Command::Claim(place(words)?)),
        "post" => {
            let (state, seal) = sealed(words)?;
            Ok(Command::Post { state, seal })
        }
        "settle" => Ok(Command::Settle(place(words)?)),
        "advance" => Ok(Command::Advance(figure(words)?)),
        "look" => Ok(Command::Look(place(words)?)),
        "newest" => Ok(Command::Newest(place(words)?)),
        "copylook" => Ok(Command::CopyLook(place(words)?)),
        "make" => Ok(Command::Make(state(words)?)),
        "write" => Ok(Command::Write(to_write(words)?)),
        "read" => Ok(Command::Read(bytes(alloc, words)?)),
        "sip" => sip(alloc, words),
        _ => alone(name, words),
    }
}

// The command of this name, which stands alone on its line.
fn alone(name: &str, words: &[&str]) -> Result<Command, Fault> {
    let command = match name {
        "register" => Command::Register,
        "left" => Command::Left,
        "station" => Command::Station,
        "round" => Command::Round,
        "height" => Command::Height,
        "places" => Command::Places,
        "outputs" => Command::Outputs,
        "account" => Command::Account,
        "marked" => Command::Marked,
        "copy" => Command::Copy,
        "copyaccount" => Command::CopyAccount,
        _ => return Err(Fault::NoSuchCommand),
    };
    nothing(words)?;
    Ok(command)
}

impl Command {
    // The command of a line; none where the line is blank or a comment.
    pub fn parse(alloc: Global, line: &str) -> Result<Option<Command>, Fault> {
        if line.starts_with('#') {
            return Ok(None);
        }
        let words: Vec<&str> = line.split_whitespace().collect(alloc)?;
        match words.as_slice() {
            [] => Ok(None),
            [name, words @ ..] => Ok(Some(named(alloc, *name, words)?)),
        }
    }
}
