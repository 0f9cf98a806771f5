ghost use Rattle.std.specs.Prelude.{◌≡◌, ◌<◌, ◌^◌, length};
ghost use Rattle.eltoo.specs.Rounds.{visits, starting};
ghost use Rattle.tower.specs.Tours.{toured, with_visit};
ghost use Rattle.tower.specs.Towers.{newest_of, marks_of};

use crate::tower::Tower;
use crate::visiting::Visit;
use eltoo::answer::Counts;
use ledger::host::{Host, Ledger};

// Counts what a visit did: each call that was accepted as one of its sort, and each other as a refusal.
fn count(counts: &mut Counts, visit: &Visit)
    requires posts { counts.old.posts < 1000 }
    requires settlements { counts.old.settlements < 1000 }
    requires refusals { counts.old.refusals < 1000 }
    ensures { counts.new ≡ with_visit visit.now counts.old }
{
    match visit.post {
        Some(Ok(())) => counts.posts += 1,
        Some(Err(_)) => counts.refusals += 1,
        None => {}
    }
    match visit.settlement {
        Some(Ok(())) => counts.settlements += 1,
        Some(Err(_)) => counts.refusals += 1,
        None => {}
    }
}

impl Tower {
    // Visits the places in rising order, and answers how many posts, settlements and refusals there were.
    pub fn round<B: Host>(&self, host: &mut B) -> Counts
        ensures { toured (B.Ledger.model host.new) result ≡ visits (marks_of self.now) (newest_of self.now) (length (B.Ledger.model host.old).places) (starting (B.Ledger.model host.old)) }
    {
        let mut counts = Counts::default();
        // over the places' numbers: a host holds no list that could be gone through
        for place in 0..host.count() {
            let visit = self.visit(host, place);
            count(&mut counts, &visit);
        }
        counts
    }
}
