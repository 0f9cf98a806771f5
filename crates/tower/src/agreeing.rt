ghost use Rattle.std.specs.Prelude.{◌≡◌, false, length, replicate, Some, None, is_some, slice_index, slice_set};
ghost use Rattle.eltoo.specs.Stations.{newest_at, outdated, allotment_by, binds, any_below};
ghost use Rattle.ledger.specs.Laws.{max_places};
ghost use Rattle.tower.specs.Towers.{newest_of, marks_of};

use crate::tower::{PLACES, Tower, Watch};
use ledger::host::{Host, Ledger};
use ledger::view::View;
use state::state::State;
use state::update::Update;

// The amount at an index, 0 past the last.
fn amount_at(state: &State, index: usize) -> u64
    ensures { result ≡ slice_index state.now.amounts index }
{
    state.amounts.get(index).copied().unwrap_or(0)
}

impl Tower {
    // Nothing agreed and nothing marked.
    pub fn new() -> Tower
        ensures newest { newest_of result ≡ replicate max_places None }
        ensures marks { marks_of result ≡ replicate max_places false }
    {
        let watch = Watch {
            newest: None,
            marked: false,
        };
        Tower {
            watches: [watch; PLACES],
        }
    }

    // The newest agreed state of a place with its seal.
    pub fn newest(&self, place: usize) -> Option<Update>
        ensures { result ≡ newest_at (newest_of self.now) place }
    {
        self.watches.get(place).and_then(|watch| watch.newest)
    }

    // Whether something is agreed for a place.
    pub fn is_agreed(&self, place: usize) -> bool
        ensures { result ≡ is_some (newest_at (newest_of self.now) place) }
    {
        self.newest(place).is_some()
    }

    // Keeps an update as the newest of its place.
    #[tactic(auto, using(crate::proofs::Watching::sets, crate::proofs::Watching::marks_stay))]
    pub fn keep(&mut self, update: Update)
        ensures newest { newest_of self.new ≡ slice_set (newest_of self.old) update.state.place (Some update) }
        ensures marks { marks_of self.new ≡ marks_of self.old }
    {
        self.watches[update.state.place].newest = Some(update);
    }

    // Whether the number of a state is not above the last agreed for its place.
    pub fn is_outdated(&self, state: &State) -> bool
        ensures { result ≡ outdated (newest_at (newest_of self.now) state.now.place) state.now.number.value }
    {
        self.newest(state.place)
            .is_some_and(|last| state.number <= last.state.number)
    }

    // What a state of a place with this view has to add up to: the funding of a root, or what the newest agreed state of its parent allots to a child.
    pub fn allotment(&self, view: &View) -> Option<u64>
        ensures { result ≡ allotment_by (newest_of self.now) view.now.parent view.now.funding }
    {
        match view.parent {
            None => Some(view.funding),
            Some(parent) => self
                .newest(parent.place)
                .map(|last| amount_at(&last.state, parent.index)),
        }
    }

    // Whether a place is a child of the state's place with an agreed state of another total than the state allots to it.
    fn binds_at<B: Host>(&self, host: &B, state: &State, at: usize) -> bool
        ensures { result ≡ binds (B.Ledger.model host.now) (newest_of self.now) state.now at }
    {
        let Ok(view) = host.view(at) else {
            return false;
        };
        match (view.parent, self.newest(at)) {
            (Some(parent), Some(last)) => {
                parent.place == state.place && last.state.total() != amount_at(state, parent.index)
            }
            _ => false,
        }
    }

    // Whether any place is such a child.
    pub fn is_bound<B: Host>(&self, host: &B, state: &State) -> bool
        ensures { result ≡ any_below (length (B.Ledger.model host.now).places) (binds (B.Ledger.model host.now) (newest_of self.now) state.now) }
    {
        (0..host.count()).any(|at| self.binds_at(host, state, at))
    }
}
