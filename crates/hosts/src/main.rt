#![tactic(auto)]

use account::account::account_of;
use adjudicator::table::Adjudicator;
use factory::factory::Factory;
use frozen::snapshot::Frozen;
use ledger::host::{Host, Ledger};
use ledger::setup::SetUp;
use output_chain::chain::OutputChain;
use shown::{Answer, Paid, Shown};
use state::raw::RawState;
use state::state::State;

fn look<L: Ledger>(rt: &HostRuntime, ledger: &L, place: usize) -> anyhow::Result<()> {
    match ledger.view(place) {
        Ok(view) => println!(rt; "look {place}: {}", Shown(view))?,
        Err(refusal) => println!(rt; "look {place}: {}", Answer(Err(refusal)))?,
    }
    Ok(())
}

fn print_account<L: Ledger>(rt: &HostRuntime, ledger: &L) -> anyhow::Result<()> {
    println!(rt; "{}", Paid(account_of(ledger)))?;
    Ok(())
}

fn post<H: Host>(
    rt: &HostRuntime,
    host: &mut H,
    place: u64,
    number: u64,
    a0: u64,
    a1: u64,
) -> anyhow::Result<()> {
    let raw = RawState {
        place,
        number,
        amounts: [a0, a1, 0, 0, 0, 0, 0, 0],
    };
    let answer = Answer(State::try_from(raw).and_then(|state| host.post(&state)));
    println!(rt; "post {place} {number} {a0} {a1}: {answer}")?;
    Ok(())
}

fn settle<H: Host>(rt: &HostRuntime, host: &mut H, place: usize) -> anyhow::Result<()> {
    let answer = Answer(host.settle(place));
    println!(rt; "settle {place}: {answer}")?;
    Ok(())
}

fn advance<H: Host>(rt: &HostRuntime, host: &mut H, blocks: u64) -> anyhow::Result<()> {
    let answer = Answer(host.advance(blocks));
    println!(rt; "advance {blocks}: {answer}")?;
    Ok(())
}

// A factory over place 0 is settled in its newest state, and then a channel under it.
fn play<H: Host>(rt: &HostRuntime, host: &mut H) -> anyhow::Result<()> {
    look(rt, host, 0)?;
    look(rt, host, 8)?;
    post(rt, host, 0, 1, 900, 100)?;
    advance(rt, host, 4)?;
    post(rt, host, 0, 2, 600, 400)?;
    post(rt, host, 0, 2, 600, 400)?;
    post(rt, host, 0, 3, 600, 401)?;
    post(rt, host, 8, 1, 600, 0)?;
    look(rt, host, 0)?;
    advance(rt, host, 9)?;
    settle(rt, host, 0)?;
    advance(rt, host, 1)?;
    settle(rt, host, 0)?;
    look(rt, host, 0)?;
    look(rt, host, 8)?;
    print_account(rt, host)?;
    settle(rt, host, 9)?;
    post(rt, host, 8, 7, 250, 350)?;
    advance(rt, host, 3)?;
    settle(rt, host, 8)?;
    look(rt, host, 8)?;
    look(rt, host, 16)?;
    advance(rt, host, 0)?;
    print_account(rt, host)
}

// Puts a factory on place 0 of a host, plays on it, and takes a copy.
fn story<H: Host + Drop>(rt: &HostRuntime, host: H) -> anyhow::Result<()> {
    let answer = Answer(Factory::check(&host, 0, &[3; 8]));
    println!(rt; "factory over 0: {answer}")?;
    let mut host = Factory::over(host, 0, &[3; 8]);
    let answer = Answer(Factory::check(&host, 0, &[3; 8]));
    println!(rt; "factory over 0 again: {answer}")?;
    play(rt, &mut host)?;
    let copy = Frozen::of(&host);
    advance(rt, &mut host, 5)?;
    print!(rt; "in the copy ")?;
    look(rt, &copy, 8)?;
    print!(rt; "in the copy ")?;
    print_account(rt, &copy)
}

fn run(rt: &HostRuntime) -> anyhow::Result<()> {
    let setup = SetUp {
        fundings: [1000, 500, 0, 0, 0, 0, 0, 0],
        delays: [10, 0, 2, 2, 2, 2, 2, 2],
    };
    println!(rt; "adjudicator: {}", Answer(setup.check()))?;
    story(rt, Adjudicator::new(&setup))?;
    println!(rt; "chain: {}", Answer(setup.check()))?;
    let mut chain = OutputChain::new(&setup);
    println!(rt; "outputs {}", chain.outputs())?;
    settle_root(rt, &mut chain)?;
    println!(rt; "outputs {}", chain.outputs())?;
    story(rt, OutputChain::new(&setup))
}

// Settles root 1, whose one output becomes eight.
fn settle_root<H: Host>(rt: &HostRuntime, host: &mut H) -> anyhow::Result<()> {
    post(rt, host, 1, 1, 499, 1)?;
    advance(rt, host, 144)?;
    settle(rt, host, 1)?;
    print_account(rt, host)
}

fn main(rt: HostRuntime) -> anyhow::Result<()> {
    run(&rt)
}
