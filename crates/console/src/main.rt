// Reads a script for a station from the standard input, and prints the answer to each command.
#![tactic(auto)]

use script::run::answer_line;
use script::session::Session;
use std::io;
use std::io::{BufRead, BufReader, BufWriter, Write};

// Answers the lines of a script, up to its first fault.
fn run(rt: &HostRuntime) -> anyhow::Result<()> {
    let heap = rt.alloc();
    let mut out = BufWriter::new(heap, io::writer(rt))?;
    let mut session = Session::new();
    let mut number = 0u64;
    for line in BufReader::new(heap, rt.stdin())?.lines(heap) {
        let line = line?;
        number = number.saturating_add(1);
        match answer_line(&mut session, heap, number, line.as_str()) {
            Ok(None) => {}
            Ok(Some(reply)) => writeln!(out, "{reply}")?,
            Err(fault) => {
                out.flush()?;
                return Err(anyhow::Error::from(fault));
            }
        }
    }
    out.flush()?;
    Ok(())
}

fn main(rt: HostRuntime) -> anyhow::Result<()> {
    run(&rt)
}
