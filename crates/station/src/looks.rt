ghost use Rattle.std.specs.Prelude.{◌≡◌, IfOk};
ghost use Rattle.eltoo.specs.Stations.{newest_at, is_marked};
ghost use Rattle.state.specs.Refusals.{answer, first};
ghost use Rattle.station.specs.Meaning.{look_checks};
ghost use Rattle.tower.specs.Towers.{newest_of, marks_of};

use crate::station::Station;
use ledger::host::{Host, Ledger};
use seal::scheme::Scheme;
use state::refusal::Refusal;
use state::update::Update;

impl<B: Host, S: Scheme> Station<B, S> {
    // The ledger, to look at.
    pub fn ledger(&self) -> &B
        ensures { result.now ≡ self.now.host }
    {
        &self.host
    }

    // The place itself; 1 if it is not there.
    pub(crate) fn existing(&self, place: usize) -> Result<usize, Refusal>
        ensures answer { answer result ≡ first (look_checks (B.Ledger.model self.now.host) place) }
        ensures same { IfOk result (λ p. p ≡ place) }
    {
        if place >= self.host.count() {
            return Err(Refusal::NoSuchPlace);
        }
        Ok(place)
    }

    // The newest agreed state of a place with its seal, or none; 1 for a place that is not there.
    pub fn newest(&self, place: usize) -> Result<Option<Update>, Refusal>
        ensures answer { answer result ≡ first (look_checks (B.Ledger.model self.now.host) place) }
        ensures newest { IfOk result (λ u. u ≡ newest_at (newest_of self.now.tower) place) }
    {
        let place = self.existing(place)?;
        Ok(self.tower.newest(place))
    }

    // Whether a place is marked; 1 for a place that is not there.
    pub fn is_marked(&self, place: usize) -> Result<bool, Refusal>
        ensures answer { answer result ≡ first (look_checks (B.Ledger.model self.now.host) place) }
        ensures marked { IfOk result (λ b. b ≡ is_marked (marks_of self.now.tower) place) }
    {
        let place = self.existing(place)?;
        Ok(self.tower.is_marked(place))
    }

    // How many seals the scheme has left.
    pub fn seals_left(&self) -> u64
        ensures { result ≡ (S.Scheme.seals self.now.scheme).left }
    {
        self.scheme.left()
    }
}
