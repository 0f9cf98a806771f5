use crate::command::{Command, Writing};
use crate::fault::Fault;
use crate::reply::Reply;
use account::account::account_of;
use dynamic::base::Base;
use dynamic::scheme::AnyScheme;
use eltoo::call::Call;
use factory::grow::Grow;
use frozen::snapshot::Frozen;
use ledger::host::{Host, Ledger};
use ledger::setup::SetUp;
use pile::stack::Stack;
use runs::performing::call;
use seal::key::KeyRecord;
use seal::register::Register;
use seal::scheme::Scheme;
use seal::tag::TagScheme;
use siphash::hash_bytes;
use state::raw::RawState;
use state::refusal::Refusal;
use state::state::State;
use state::update::Update;
use station::station::Station;
use std::alloc::{AllocError, Global};
use update_text::read::read;
use update_text::write::write;

// The byte that a buffer holds before a text is written into it.
const FILL: u8 = 0x2e;

// Why a command was not carried out. A refusal is its answer, and a fault ends the script.
enum Stop {
    Refused(Refusal),
    Fault(Fault),
}

impl From<Refusal> for Stop {
    fn from(refusal: Refusal) -> Stop {
        Stop::Refused(refusal)
    }
}

impl From<Fault> for Stop {
    fn from(fault: Fault) -> Stop {
        Stop::Fault(fault)
    }
}

impl From<AllocError> for Stop {
    fn from(error: AllocError) -> Stop {
        Stop::Fault(Fault::from(error))
    }
}

// What a script has made so far. A host and a scheme stand here until a station takes both;
// once another is made, the station has ended.
#[derive(Drop)]
pub struct Session {
    host: Option<Stack>,
    scheme: Option<AnyScheme>,
    station: Option<Station<Stack, AnyScheme>>,
    copy: Option<Frozen>,
}

// What is there; else the command comes too early.
fn there<T: Drop>(part: Option<T>) -> Result<T, Fault> {
    part.ok_or(Fault::NotThereYet)
}

fn done() -> Reply {
    Reply::Answer(Ok(()))
}

fn look<L: Ledger>(ledger: &L, place: usize) -> Result<Reply, Stop> {
    Ok(Reply::Look(ledger.view(place)?))
}

fn made(raw: RawState) -> Result<Reply, Stop> {
    let _ = State::try_from(raw)?;
    Ok(done())
}

// The text of an update, in a buffer from a position on.
fn written(alloc: Global, writing: Writing) -> Result<Reply, Stop> {
    let state = State::try_from(writing.state)?;
    let update = Update {
        state,
        seal: writing.seal,
    };
    let mut buffer = vec![in alloc; FILL; writing.size]?;
    let end = write(buffer.as_mut_slice(), writing.position, update)?;
    Ok(Reply::Written { end, buffer })
}

impl Session {
    // Nothing is made yet.
    pub fn new() -> Session {
        Session {
            host: None,
            scheme: None,
            station: None,
            copy: None,
        }
    }

    // The host of no station yet.
    fn host(&mut self) -> Result<&mut Stack, Fault> {
        there(self.host.as_mut())
    }

    // The scheme of no station yet.
    fn scheme(&mut self) -> Result<&mut AnyScheme, Fault> {
        there(self.scheme.as_mut())
    }

    fn station(&self) -> Result<&Station<Stack, AnyScheme>, Fault> {
        there(self.station.as_ref())
    }

    fn copy(&self) -> Result<&Frozen, Fault> {
        there(self.copy.as_ref())
    }

    // The ledger to look at: the station's, or the host's where no station stands.
    fn ledger(&self) -> Result<&Stack, Fault> {
        match &self.station {
            Some(station) => Ok(station.ledger()),
            None => there(self.host.as_ref()),
        }
    }

    // Makes a host, also against a bad set-up, and ends a station that stands.
    fn found(&mut self, setup: &SetUp, base: Base) -> Result<Reply, Stop> {
        self.station = None;
        self.host = Some(Stack::over(base));
        setup.check()?;
        Ok(done())
    }

    // Makes a scheme, and ends a station that stands.
    fn bring(&mut self, scheme: AnyScheme) -> Reply {
        self.station = None;
        self.scheme = Some(scheme);
        done()
    }

    // Makes a tag scheme; a refusal leaves all as it was.
    fn tag(&mut self, k0: u64, k1: u64, limit: u64) -> Reply {
        let mut key = KeyRecord { k0, k1 };
        let answer = match TagScheme::set_up(&mut key, limit) {
            Ok(scheme) => {
                let _ = self.bring(AnyScheme::Tag(scheme));
                Ok(())
            }
            Err(refusal) => Err(refusal),
        };
        let KeyRecord { k0, k1 } = key;
        Reply::Tagged { answer, k0, k1 }
    }

    fn grow(&mut self, place: usize, delays: &[u64; 8]) -> Result<Reply, Stop> {
        self.host()?.grow(place, delays)?;
        Ok(done())
    }

    fn host_post(&mut self, raw: RawState) -> Result<Reply, Stop> {
        let state = State::try_from(raw)?;
        self.host()?.post(&state)?;
        Ok(done())
    }

    fn host_settle(&mut self, place: usize) -> Result<Reply, Stop> {
        self.host()?.settle(place)?;
        Ok(done())
    }

    fn host_advance(&mut self, blocks: u64) -> Result<Reply, Stop> {
        self.host()?.advance(blocks)?;
        Ok(done())
    }

    fn sign(&mut self, raw: RawState) -> Result<Reply, Stop> {
        let state = State::try_from(raw)?;
        Ok(Reply::Seal(self.scheme()?.sign(&state)?))
    }

    fn check(&mut self, raw: RawState, seal: u64) -> Result<Reply, Stop> {
        let state = State::try_from(raw)?;
        Ok(Reply::Good(self.scheme()?.check(&state, seal)))
    }

    // Sets up a station over the host and the scheme, which are its own from then on.
    fn set_up(&mut self) -> Result<Reply, Stop> {
        if self.host.is_none() || self.scheme.is_none() {
            return Err(Stop::Fault(Fault::NotThereYet));
        }
        let host = there(self.host.take())?;
        let scheme = there(self.scheme.take())?;
        self.station = Some(Station::set_up(host, scheme));
        Ok(done())
    }

    // One of the station's six calls.
    fn perform(&mut self, what: Call) -> Result<Reply, Stop> {
        let station = there(self.station.as_mut())?;
        Ok(Reply::from(call(station, what)?))
    }

    fn left(&self) -> Result<Reply, Stop> {
        let left = match &self.station {
            Some(station) => station.seals_left(),
            None => there(self.scheme.as_ref())?.left(),
        };
        Ok(Reply::Number(left))
    }

    fn newest(&self, place: usize) -> Result<Reply, Stop> {
        Ok(match self.station()?.newest(place)? {
            Some(update) => Reply::Newest(update),
            None => Reply::Nothing,
        })
    }

    // The marked places in rising order.
    fn marked(&self, alloc: Global) -> Result<Reply, Stop> {
        let station = self.station()?;
        let places = (0..station.ledger().count())
            .filter(|place| station.is_marked(*place) == Ok(true))
            .collect(alloc)?;
        Ok(Reply::Marked(places))
    }

    // Takes a copy of the ledger as it is now.
    fn freeze(&mut self) -> Result<Reply, Stop> {
        self.copy = Some(Frozen::of(self.ledger()?));
        Ok(done())
    }

    fn outputs(&self) -> Result<Reply, Stop> {
        Ok(match self.ledger()?.outputs() {
            Some(outputs) => Reply::Number(outputs as u64),
            None => Reply::Nothing,
        })
    }

    fn carry_out(&mut self, alloc: Global, command: Command) -> Result<Reply, Stop> {
        match command {
            Command::Chain(setup) => self.found(&setup, Base::chain(&setup)),
            Command::Adjudicator(setup) => self.found(&setup, Base::adjudicator(&setup)),
            Command::Factory { place, delays } => self.grow(place, &delays),
            Command::Register => Ok(self.bring(AnyScheme::Register(Register::new()))),
            Command::Tag { k0, k1, limit } => Ok(self.tag(k0, k1, limit)),
            Command::Sign(raw) => self.sign(raw),
            Command::Good { state, seal } => self.check(state, seal),
            Command::Left => self.left(),
            Command::HostPost(raw) => self.host_post(raw),
            Command::HostSettle(place) => self.host_settle(place),
            Command::HostAdvance(blocks) => self.host_advance(blocks),
            Command::Station => self.set_up(),
            Command::Agree(raw) => self.perform(Call::Agree(State::try_from(raw)?)),
            Command::Claim(place) => self.perform(Call::Claim(place)),
            Command::Post { state, seal } => self.perform(Call::Post(
                State::try_from(state)?,
                seal,
            )),
            Command::Settle(place) => self.perform(Call::Settle(place)),
            Command::Advance(blocks) => self.perform(Call::Advance(blocks)),
            Command::Round => self.perform(Call::Round),
            Command::Look(place) => look(self.ledger()?, place),
            Command::Height => Ok(Reply::Number(u64::from(self.ledger()?.height().blocks))),
            Command::Places => Ok(Reply::Number(self.ledger()?.count() as u64)),
            Command::Outputs => self.outputs(),
            Command::Account => Ok(Reply::Account(account_of(self.ledger()?))),
            Command::Newest(place) => self.newest(place),
            Command::Marked => self.marked(alloc),
            Command::Copy => self.freeze(),
            Command::CopyLook(place) => look(self.copy()?, place),
            Command::CopyAccount => Ok(Reply::Account(account_of(self.copy()?))),
            Command::Make(raw) => made(raw),
            Command::Write(writing) => written(alloc, writing),
            Command::Read(bytes) => Ok(Reply::Read(read(bytes.as_slice())?)),
            Command::Sip { key, bytes } => Ok(Reply::Number(hash_bytes(key, bytes.as_slice()))),
        }
    }

    // The answer to a command.
    pub fn answer(&mut self, alloc: Global, command: Command) -> Result<Reply, Fault> {
        match self.carry_out(alloc, command) {
            Ok(reply) => Ok(reply),
            Err(Stop::Refused(refusal)) => Ok(Reply::Answer(Err(refusal))),
            Err(Stop::Fault(fault)) => Err(fault),
        }
    }
}
