// Runs the scenario scripts, and compares the answers with those that are wanted.
#![tactic(auto)]

use anyhow::{Context, ensure};
use script::run::answer_line;
use script::session::Session;
use std::fs;

const SCENARIOS: [&str; 5] = ["edge", "rand", "host", "scheme", "text"];

// The answers to a script, one a line, and how many there are.
fn answers(rt: &HostRuntime, script: &str) -> anyhow::Result<(String, u64)> {
    let mut text = String::new(rt.alloc());
    let mut count = 0u64;
    let mut session = Session::new();
    for (line, number) in script.lines().zip(1..u64::MAX) {
        if let Some(reply) = answer_line(&mut session, rt.alloc(), number, line)? {
            writeln!(text, "{reply}")?;
            count = count.saturating_add(1);
        }
    }
    Ok((text, count))
}

// How many lines of two texts differ; a line that only one has counts too.
fn differing(one: &str, other: &str) -> usize {
    let pairs = one.split('\n').zip(other.split('\n'));
    let unequal = pairs.filter(|(a, b)| a != b).count();
    let lines = one.split('\n').count().abs_diff(other.split('\n').count());
    unequal.saturating_add(lines)
}

// Runs one scenario, and says whether every answer is the wanted one.
fn scenario(rt: &HostRuntime, name: &str) -> anyhow::Result<bool> {
    let script = fs::read_to_string(rt, format!(in rt.alloc(); "{name}.in")?)?;
    let wanted = fs::read_to_string(rt, format!(in rt.alloc(); "{name}.out")?)?;
    let (given, count) = answers(rt, script.as_str()).context(format_args!("{name}.in"))?;
    let differ = differing(given.as_str(), wanted.as_str());
    println!(rt; "{name}: {count} answers, {differ} differ")?;
    Ok(differ == 0)
}

fn run(rt: &HostRuntime) -> anyhow::Result<()> {
    let mut same = true;
    for name in SCENARIOS {
        same = scenario(rt, name)? && same;
    }
    ensure!(same, "not every answer is the wanted one");
    Ok(())
}

fn main(rt: HostRuntime) -> anyhow::Result<()> {
    run(&rt)
}
