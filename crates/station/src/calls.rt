ghost use Rattle.std.specs.Prelude.{Ok};
ghost use Rattle.eltoo.specs.declared.answer.Outcome.TheVariants.{Done, Sealed, Counted};
ghost use Rattle.eltoo.specs.declared.call.Call.{Call};
ghost use Rattle.eltoo.specs.declared.call.Call.TheVariants.{Agree, Claim, Post, Settle, Advance, Round};
ghost use Rattle.eltoo.specs.Safety.{GoesOn};
ghost use Rattle.eltoo.specs.Stations.{StationModel};
ghost use Rattle.eltoo.specs.Steps.{Answer, Step};
ghost use Rattle.station.specs.Meaning.{Makes, answered};

use crate::station::Station;
use eltoo::answer::Counts;
use ledger::host::{Host, Ledger};
use ledger::view::Standing;
use seal::scheme::Scheme;
use state::refusal::Refusal;
use state::state::State;
use state::update::Update;

impl<B: Host, S: Scheme> Station<B, S> {
    // A step goes on with every run that led to it. The calls cite it, since a lemma named by `using` is not applied backwards.
    #[tactic(auto, using(eltoo::proofs::Safely::goes_on))]
    fn laws()
        ensures { (s : StationModel) (c : Call) (a : Answer) (t : StationModel) → Step S.Scheme.gives s c a t → GoesOn S.Scheme.gives s c a t }
    {}

    // Agrees on a state, and answers its seal: 1, 5, 9, 7, 10, 6, 11, 17.
    pub fn agree(&mut self, state: &State) -> Result<u64, Refusal>
        ensures { Makes B.Ledger.model S.Scheme.seals S.Scheme.gives self.old (Agree state.now) (answered Sealed result) self.new }
    {
        Self::laws();
        let view = self.host.view(state.place)?;
        match view.standing {
            Standing::Settled { .. } => return Err(Refusal::Settled),
            Standing::Posted { .. } => return Err(Refusal::InContest),
            Standing::Shut | Standing::Open => {}
        }
        if self.tower.is_outdated(state) {
            return Err(Refusal::NotNewer);
        }
        let allotment = self.tower.allotment(&view).ok_or(Refusal::ParentNotAgreed)?;
        if state.total() != allotment {
            return Err(Refusal::WrongTotal);
        }
        if self.tower.is_bound(&self.host, state) {
            return Err(Refusal::AllotmentBound);
        }
        let seal = self.scheme.sign(state)?;
        self.tower.keep(Update {
            state: *state,
            seal,
        });
        Ok(seal)
    }

    // Marks a place and all that it hangs from, for the next rounds to settle: 1, 5, 12.
    pub fn claim(&mut self, place: usize) -> Result<(), Refusal>
        ensures { Makes B.Ledger.model S.Scheme.seals S.Scheme.gives self.old (Claim place) (answered (λ _. Done) result) self.new }
    {
        Self::laws();
        let view = self.host.view(place)?;
        if let Standing::Settled { .. } = view.standing {
            return Err(Refusal::Settled);
        }
        if !self.tower.is_agreed(place) {
            return Err(Refusal::NothingAgreed);
        }
        self.tower.mark_lineage(&self.host, place);
        Ok(())
    }

    // Posts a state with its seal: 1, 8, and then what the host says.
    #[tactic(auto, using(crate::proofs::Doing::decided))]
    pub fn post(&mut self, state: &State, seal: u64) -> Result<(), Refusal>
        ensures { Makes B.Ledger.model S.Scheme.seals S.Scheme.gives self.old (Post state.now seal) (answered (λ _. Done) result) self.new }
    {
        Self::laws();
        self.existing(state.place)?;
        if !self.scheme.check(state, seal) {
            return Err(Refusal::BadSeal);
        }
        self.host.post(state)
    }

    // Settles a place that is posted and due: what the host says.
    #[tactic(auto, using(crate::proofs::Doing::decided))]
    pub fn settle(&mut self, place: usize) -> Result<(), Refusal>
        ensures { Makes B.Ledger.model S.Scheme.seals S.Scheme.gives self.old (Settle place) (answered (λ _. Done) result) self.new }
    {
        Self::laws();
        self.host.settle(place)
    }

    // Raises the height: what the host says.
    #[tactic(auto, using(crate::proofs::Doing::decided))]
    pub fn advance(&mut self, blocks: u64) -> Result<(), Refusal>
        ensures { Makes B.Ledger.model S.Scheme.seals S.Scheme.gives self.old (Advance blocks) (answered (λ _. Done) result) self.new }
    {
        Self::laws();
        self.host.advance(blocks)
    }

    // Visits the places in rising order, and answers how many posts, settlements and refusals there were. It never refuses.
    pub fn round(&mut self) -> Counts
        ensures { Makes B.Ledger.model S.Scheme.seals S.Scheme.gives self.old Round (Ok (Counted result)) self.new }
    {
        Self::laws();
        self.tower.round(&mut self.host)
    }
}
