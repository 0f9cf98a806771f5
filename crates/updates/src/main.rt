#![tactic(auto)]

ghost use Rattle.std.specs.Prelude.{◌≡◌, ◌==◌, ◌<◌, ◌≤◌, [], ◌∷◌, ◌++◌, MatchOption, length, position, take};
ghost use Rattle.std.specs.Iterator.{at_most};

use anyhow::bail;
use batch::text_end;
use seal::key::KeyRecord;
use seal::scheme::Scheme;
use seal::tag::{MAX_LIMIT, TagScheme};
use state::refusal::Refusal;
use state::state::State;
use state::update::Update;
use std::fmt;
use std::io::Read;
use std::str::from_utf8;
use update_text::decimal::number;
use update_text::read::read;
use update_text::write::write;

// A text is at most 213 bytes long.
const BUFFER: usize = 256;

// The number of a refusal and its words.
#[derive(Drop)]
struct Told(Refusal);

impl fmt::Display for Told {
    fn fmt<W: fmt::Write>(&self, f: &mut fmt::Formatter<W>) -> fmt::Result {
        let number = u8::from(self.0);
        write!(f, "no {number} {}", self.0)
    }
}

// The key words of the first line: two decimal numbers with one space between them.
fn key_words(line: &[u8]) -> Option<KeyRecord> {
    let (first, second) = from_utf8(line).ok()?.split_once(' ')?;
    Some(KeyRecord {
        k0: number(first.as_bytes())?,
        k1: number(second.as_bytes())?,
    })
}

// The figures of a state.
#[derive(Drop)]
struct Shown(State);

impl fmt::Display for Shown {
    fn fmt<W: fmt::Write>(&self, f: &mut fmt::Formatter<W>) -> fmt::Result {
        let state = &self.0;
        write!(
            f,
            "place {} number {} amounts",
            state.place, state.number.value
        )?;
        for amount in state.amounts {
            write!(f, " {amount}")?;
        }
        write!(f, " total {}", state.total())
    }
}

// Signs the state, and says whether the seal of the text is its tag.
fn print_tag(rt: &HostRuntime, scheme: &mut TagScheme, update: Update) -> anyhow::Result<()> {
    let state = update.state;
    let seal = update.seal;
    let good = if scheme.check(&state, seal) {
        "good"
    } else {
        "not good"
    };
    match scheme.sign(&state) {
        Ok(tag) => println!(rt; "  tag {tag}, seal {seal} {good}")?,
        Err(refusal) => println!(rt; "  {}", Told(refusal))?,
    }
    Ok(())
}

fn print_written(rt: &HostRuntime, text: &[u8], update: Update) -> anyhow::Result<()> {
    let mut buf = [0; BUFFER];
    match write(&mut buf, 0, update) {
        Ok(end) => {
            let said = if buf.get(..end) == Some(text) {
                "the same bytes"
            } else {
                "other bytes"
            };
            println!(rt; "  written again: {end} bytes, {said}")?;
        }
        Err(refusal) => println!(rt; "  {}", Told(refusal))?,
    }
    Ok(())
}

// Says what one text holds, and whether it is accepted.
fn print_text(rt: &HostRuntime, scheme: &mut TagScheme, text: &[u8]) -> anyhow::Result<bool> {
    match read(text) {
        Err(refusal) => {
            println!(rt; "{}", Told(refusal))?;
            Ok(false)
        }
        Ok(update) => {
            println!(rt; "{}", Shown(update.state))?;
            print_tag(rt, scheme, update)?;
            print_written(rt, text, update)?;
            Ok(true)
        }
    }
}

// The texts of an input, of which an empty line or the end of the input ends each.
#[derive(Drop)]
struct Texts<'a> {
    rest: &'a [u8],
}

impl<'a> Iterator for Texts<'a> {
    type Item = &'a [u8];

    ghost remaining = { λ texts. at_most (length texts.rest.now) };

    fn next(&mut self) -> Option<&'a [u8]> {
        if self.rest.is_empty() {
            return None;
        }
        let (text, after) = self.rest.split_at(text_end(self.rest));
        self.rest = after.get(1..).unwrap_or(after);
        Some(text)
    }
}

// Goes through the texts after the key line, and ends with a count.
fn print_texts(rt: &HostRuntime, scheme: &mut TagScheme, input: &[u8]) -> anyhow::Result<()> {
    let mut count: u64 = 0;
    let mut accepted: u64 = 0;
    for text in (Texts { rest: input }) {
        count = count.saturating_add(1);
        print!(rt; "text {count}: ")?;
        if print_text(rt, scheme, text)? {
            accepted = accepted.saturating_add(1);
        }
    }
    let refused = count.saturating_sub(accepted);
    println!(rt; "{count} texts: {accepted} accepted, {refused} refused")?;
    Ok(())
}

// Where the first newline of the input stands.
fn newline(input: &[u8]) -> Option<usize>
    ensures { result ≡ position (λ b. b == 10) input.now }
{
    input.iter().position(|b| *b == b'\n')
}

// The first line, without its newline, and what follows it.
#[tactic(auto, using(crate::proofs::Lines::around))]
fn first_line(input: &[u8]) -> (&[u8], &[u8])
    ensures line { MatchOption (position (λ b. b == 10) input.now) (result.0.now ≡ input.now) (λ end. result.0.now ≡ take end input.now) }
    ensures within { length result.0.now ≤ length input.now }
    ensures ended { length result.0.now < length input.now → input.now ≡ result.0.now ++ (10 ∷ result.1.now) }
    ensures whole { length result.0.now ≡ length input.now → (result.0.now ≡ input.now × result.1.now ≡ []) }
{
    match newline(input) {
        Some(end) => (&input[..end], &input[end + 1..]),
        None => (input, &[]),
    }
}

fn run(rt: &HostRuntime) -> anyhow::Result<()> {
    let mut input = Vec::new(rt.alloc());
    rt.stdin().read_to_end(&mut input)?;
    let (first, rest) = first_line(&input);
    let Some(mut key) = key_words(first) else {
        bail!("line 1: expected two key words, decimal numbers below 2^64");
    };
    match TagScheme::set_up(&mut key, MAX_LIMIT) {
        Ok(mut scheme) => print_texts(rt, &mut scheme, rest),
        Err(refusal) => {
            println!(rt; "{}", Told(refusal))?;
            Ok(())
        }
    }
}

fn main(rt: HostRuntime) -> anyhow::Result<()> {
    run(&rt)
}
