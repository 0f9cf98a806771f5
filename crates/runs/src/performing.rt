ghost use Rattle.std.specs.Prelude.{◌≡◌, []};
ghost use Rattle.eltoo.specs.Lists.{calls_of, Performs, Performed, WholeRun, WholeFreshRun};
ghost use Rattle.eltoo.specs.Stations.{set_up};
ghost use Rattle.seal.specs.Registers.{RowGives, row_seals, register_meaning};
ghost use Rattle.station.specs.Meaning.{meant, Makes};

use eltoo::answer::Outcome;
use eltoo::call::Call;
use eltoo::turn::Turn;
use ledger::host::{Host, Ledger};
use seal::register::Register;
use seal::scheme::Scheme;
use state::refusal::Refusal;
use station::station::Station;

// One of the six calls of a station.
pub fn call<B: Host, S: Scheme>(station: &mut Station<B, S>, call: Call) -> Result<Outcome, Refusal>
    ensures { Makes B.Ledger.model S.Scheme.seals S.Scheme.gives station.old call result station.new }
{
    // a list of calls is handed in and looked at again, so a call is an enum's value and no closure
    match call {
        Call::Agree(state) => station.agree(&state).map(Outcome::Sealed),
        Call::Claim(place) => station.claim(place).map(|()| Outcome::Done),
        Call::Post(state, seal) => station.post(&state, seal).map(|()| Outcome::Done),
        Call::Settle(place) => station.settle(place).map(|()| Outcome::Done),
        Call::Advance(blocks) => station.advance(blocks).map(|()| Outcome::Done),
        Call::Round => Ok(Outcome::Counted(station.round())),
    }
}

// Performs a list of calls in turn, and writes each answer beside its call.
pub fn perform<B: Host, S: Scheme>(station: &mut Station<B, S>, turns: &mut [Turn])
    ensures calls { calls_of turns.new ≡ calls_of turns.old }
    ensures performed { Performed S.Scheme.gives (meant B.Ledger.model S.Scheme.seals station.old) turns.new (meant B.Ledger.model S.Scheme.seals station.new) }
{
    for turn in turns.iter_mut() {
        turn.answer = Some(call(station, turn.call));
    }
}

// Sets up a station over a host and a scheme, and performs a list of calls on it. What no run breaks holds of that list.
pub fn run<B: Host, S: Scheme>(host: B, scheme: S, turns: &mut [Turn]) -> Station<B, S>
    ensures calls { calls_of turns.new ≡ calls_of turns.old }
    ensures steps { Performs S.Scheme.gives (set_up (B.Ledger.model host) (S.Scheme.seals scheme)) turns.new (meant B.Ledger.model S.Scheme.seals result) }
    ensures whole { WholeRun S.Scheme.gives (set_up (B.Ledger.model host) (S.Scheme.seals scheme)) turns.new (meant B.Ledger.model S.Scheme.seals result) }
{
    let mut station = Station::set_up(host, scheme);
    perform(&mut station, turns);
    station
}

// The same over an empty register, where no premise about seals is needed.
pub fn run_fresh<B: Host>(host: B, turns: &mut [Turn]) -> Station<B, Register>
    ensures calls { calls_of turns.new ≡ calls_of turns.old }
    ensures steps { Performs RowGives (set_up (B.Ledger.model host) (row_seals [])) turns.new (meant B.Ledger.model register_meaning result) }
    ensures whole { WholeFreshRun (set_up (B.Ledger.model host) (row_seals [])) turns.new (meant B.Ledger.model register_meaning result) }
{
    run(host, Register::new(), turns)
}
