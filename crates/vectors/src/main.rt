#![tactic(auto)]

ghost use Rattle.std.specs.Prelude.{◌≡◌, length, IfOk, vec_len, ◌==◌};
ghost use Rattle.siphash.specs.Sip.{sip_hash, word_bytes};

use siphash::{Key, hash_bytes, hash_words};
use std::alloc::{AllocError, Global};
use std::io::{BufRead, BufReader};
use std::num::ParseIntError;

// The key bytes 00 to 0f.
const KEY: Key = Key {
    k0: 0x0706_0504_0302_0100,
    k1: 0x0f0e_0d0c_0b0a_0908,
};

// A hash to compare with.
#[derive(Drop)]
enum Vector {
    // The hash of the `len` bytes 00, 01, 02 .. under the key bytes 00 to 0f.
    Bytes {
        len: u8,
        hash: u64,
    },
    // The hash of whole words.
    Words {
        key: Key,
        words: Vec<u64>,
        hash: u64,
    },
}

// Why a line could not be read.
#[derive(Debug, Drop)]
enum LineError {
    Malformed,
    OutOfMemory(AllocError),
}

impl From<ParseIntError> for LineError {
    fn from(_error: ParseIntError) -> LineError {
        LineError::Malformed
    }
}

impl From<AllocError> for LineError {
    fn from(error: AllocError) -> LineError {
        LineError::OutOfMemory(error)
    }
}

// What was compared so far.
#[derive(Default, Drop)]
struct Tally {
    bytes: u64,
    words: u64,
    mismatches: u64,
}

fn hex(field: &str) -> Result<u64, ParseIntError> {
    u64::from_str_radix(field, 16)
}

fn hex_words(heap: Global, fields: &[&str]) -> Result<Vec<u64>, LineError> {
    fields
        .iter()
        .map(|field| -> Result<u64, LineError> { Ok(hex(*field)?) })
        .try_collect(heap)
}

impl Vector {
    // The vector of a line, and none where the line is empty or a comment.
    fn parse(heap: Global, line: &str) -> Result<Option<Vector>, LineError> {
        if line.starts_with('#') {
            return Ok(None);
        }
        let fields: Vec<&str> = line.split_whitespace().collect(heap)?;
        match fields.as_slice() {
            [] => Ok(None),
            [len, hash] => Ok(Some(Vector::Bytes {
                len: len.parse()?,
                hash: hex(*hash)?,
            })),
            [k0, k1, count, words @ .., hash] if count.parse() == Ok(words.len()) => {
                Ok(Some(Vector::Words {
                    key: Key {
                        k0: hex(*k0)?,
                        k1: hex(*k1)?,
                    },
                    words: hex_words(heap, words)?,
                    hash: hex(*hash)?,
                }))
            }
            _ => Err(LineError::Malformed),
        }
    }

    // Whether hashing gives the hash of the vector.
    fn is_right(&self, heap: Global) -> Result<bool, AllocError> {
        match self {
            Vector::Bytes { len, hash } => Ok(hash_counting(heap, *len)? == *hash),
            Vector::Words { key, words, hash } => words_agree(heap, *key, words.as_slice(), *hash),
        }
    }
}

// The bytes 00, 01, 02 .. up to `len` of them.
fn counting(heap: Global, len: u8) -> Result<Vec<u8>, AllocError>
    ensures { IfOk result (λ v. vec_len v ≡ len) }
{
    (0..len).collect(heap)
}

// The bytes of words, each least byte first.
#[tactic(auto, unfolding(siphash::specs::Sip::word_bytes))]
fn word_bytes(heap: Global, words: &[u64]) -> Result<Vec<u8>, AllocError>
    ensures { IfOk result (λ v. v.items ≡ word_bytes words.now) }
{
    // a loop, since a proof knows nothing of the items of a `flat_map` over arrays
    let mut bytes = Vec::new(heap);
    for word in words {
        bytes.extend_from_slice(&word.to_le_bytes())?;
    }
    Ok(bytes)
}

// The hash of the first `len` bytes 00, 01, 02 .. under the key bytes 00 to 0f.
fn hash_counting(heap: Global, len: u8) -> Result<u64, AllocError> {
    let message = counting(heap, len)?;
    Ok(hash_bytes(KEY, message.as_slice()))
}

// Whether words hash to `hash`, both as words and as their bytes.
fn words_agree(heap: Global, key: Key, words: &[u64], hash: u64) -> Result<bool, AllocError>
    ensures { IfOk result (λ same. same ≡ (sip_hash key.k0 key.k1 (word_bytes words.now) == hash)) }
{
    let bytes = word_bytes(heap, words)?;
    Ok(hash_words(key, words) == hash && hash_bytes(key, bytes.as_slice()) == hash)
}

impl Tally {
    // Counts one line, and says whether it is right.
    fn count(&mut self, heap: Global, line: &str) -> Result<bool, AllocError> {
        let right = match Vector::parse(heap, line) {
            Ok(None) => true,
            Ok(Some(vector)) => {
                let kind = match &vector {
                    Vector::Bytes { .. } => &mut self.bytes,
                    Vector::Words { .. } => &mut self.words,
                };
                *kind = kind.saturating_add(1);
                vector.is_right(heap)?
            }
            Err(LineError::Malformed) => false,
            Err(LineError::OutOfMemory(error)) => return Err(error),
        };
        if !right {
            self.mismatches = self.mismatches.saturating_add(1);
        }
        Ok(right)
    }
}

fn run(rt: &HostRuntime) -> anyhow::Result<()> {
    let heap = rt.alloc();
    let mut tally = Tally::default();
    for line in BufReader::new(heap, rt.stdin())?.lines(heap) {
        let line = line?;
        if !tally.count(heap, line.as_str())? {
            println!(rt; "mismatch: {line}")?;
        }
    }
    let fifteen = hash_counting(heap, 15)?;
    println!(rt; "15 bytes: {fifteen:016x}")?;
    let Tally {
        bytes,
        words,
        mismatches,
    } = tally;
    println!(rt; "{bytes} byte vectors, {words} word vectors, {mismatches} mismatches")?;
    Ok(())
}

fn main(rt: HostRuntime) -> anyhow::Result<()> {
    run(&rt)
}
