ghost use Rattle.std.specs.Prelude.{◌≡◌, ◌<◌, length};
ghost use Rattle.eltoo.specs.declared.answer.Counts.{Counts};
ghost use Rattle.eltoo.specs.Rounds.{one_post, one_settlement, wants_post, wants_settle, tried_post, tried_settle, visit as visited};
ghost use Rattle.eltoo.specs.Stations.{newest_at};
ghost use Rattle.tower.specs.Tours.{toured, noted, with_visit};
ghost use Rattle.tower.specs.Towers.{newest_of, marks_of};

use crate::tower::Tower;
use ledger::host::{Host, Ledger};
use ledger::phase::Deadline;
use ledger::view::Standing;
use state::refusal::Refusal;
use state::state::State;
use state::update::Update;

// What the visit of a place did: the host's answer to the post and to the settlement, where they were tried.
#[derive(Clone, Copy)]
pub(crate) struct Visit {
    pub(crate) post: Option<Result<(), Refusal>>,
    pub(crate) settlement: Option<Result<(), Refusal>>,
}

// Whether a place is posted and due.
fn is_due<B: Host>(host: &B, place: usize) -> bool
    ensures { result ≡ wants_settle (B.Ledger.model host.now) place }
{
    let Ok(view) = host.view(place) else {
        return false;
    };
    match view.standing {
        Standing::Posted { since, .. } => {
            Deadline::of(since, view.delay).is_reached(host.height())
        }
        Standing::Shut | Standing::Open | Standing::Settled { .. } => false,
    }
}

// The second half of a visit: a place that is due is settled.
fn settle_due<B: Host>(host: &mut B, place: usize) -> Option<Result<(), Refusal>>
    ensures { (c : Counts) → toured (B.Ledger.model host.new) (noted one_settlement result c) ≡ tried_settle place (toured (B.Ledger.model host.old) c) }
{
    if !is_due(host, place) {
        return None;
    }
    Some(host.settle(place))
}

impl Tower {
    // Whether a round posts the state: its place is posted with a lower number, or open and marked.
    fn wants_post<B: Host>(&self, host: &B, place: usize, state: &State) -> bool
        requires { place < length (B.Ledger.model host.now).places }
        ensures { result ≡ wants_post (marks_of self.now) (B.Ledger.model host.now) place state.now }
    {
        let Ok(view) = host.view(place) else {
            return false;
        };
        match view.standing {
            Standing::Posted { number, .. } => number < state.number,
            Standing::Open => self.is_marked(place),
            Standing::Shut | Standing::Settled { .. } => false,
        }
    }

    // The first half of a visit: the newest state is posted where it should be.
    fn post_newest<B: Host>(
        &self,
        host: &mut B,
        place: usize,
        newest: &Update,
    ) -> Option<Result<(), Refusal>>
        requires { place < length (B.Ledger.model host.old).places }
        ensures { (c : Counts) → toured (B.Ledger.model host.new) (noted one_post result c) ≡ tried_post (marks_of self.now) place newest.now.state (toured (B.Ledger.model host.old) c) }
    {
        if !self.wants_post(host, place, &newest.state) {
            return None;
        }
        Some(host.post(&newest.state))
    }

    // The visit of a place: nothing where nothing is agreed, else first the post and then the settlement.
    pub(crate) fn visit<B: Host>(&self, host: &mut B, place: usize) -> Visit
        requires { place < length (B.Ledger.model host.old).places }
        ensures { (c : Counts) → toured (B.Ledger.model host.new) (with_visit result c) ≡ visited (marks_of self.now) (newest_at (newest_of self.now) place) place (toured (B.Ledger.model host.old) c) }
    {
        match self.newest(place) {
            None => Visit {
                post: None,
                settlement: None,
            },
            Some(newest) => {
                let post = self.post_newest(host, place, &newest);
                let settlement = settle_due(host, place);
                Visit { post, settlement }
            }
        }
    }
}
