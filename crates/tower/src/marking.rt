ghost use Rattle.std.specs.Prelude.{◌≡◌, true, option_map, slice_set};
ghost use Rattle.eltoo.specs.Lineage.{lineage, LineagesList};
ghost use Rattle.eltoo.specs.Safety.{ClaimMarks};
ghost use Rattle.eltoo.specs.Stations.{is_marked, mark_each};
ghost use Rattle.ledger.specs.Model.{place_at};
ghost use Rattle.tower.specs.Towers.{newest_of, marks_of};

use crate::tower::{PLACES, Tower};
use ledger::host::{Host, Ledger};

// The parent of a place; none for a root, and for what is no place.
fn parent_of<B: Host>(host: &B, place: usize) -> Option<usize>
    ensures { result ≡ option_map (λ u. u.place) (place_at (B.Ledger.model host.now) place).parent }
{
    host.view(place).ok()?.parent.map(|parent| parent.place)
}

impl Tower {
    // Whether a place is marked.
    pub fn is_marked(&self, place: usize) -> bool
        ensures { result ≡ is_marked (marks_of self.now) place }
    {
        self.watches.get(place).is_some_and(|watch| watch.marked)
    }

    // Marks a place, if there is room for it.
    #[tactic(auto, using(crate::proofs::Watching::sets, crate::proofs::Watching::newest_stay, std::proofs::lemmas::List::set_past))]
    fn set_mark(&mut self, place: usize)
        ensures marks { marks_of self.new ≡ slice_set (marks_of self.old) place true }
        ensures newest { newest_of self.new ≡ newest_of self.old }
    {
        // by index, since `get_mut` does not say what the array holds afterwards
        if place < PLACES {
            self.watches[place].marked = true;
        }
    }

    // Sets the marks of a place and of all that it hangs from.
    fn set_marks<B: Host>(&mut self, host: &B, place: usize)
        ensures marks { marks_of self.new ≡ mark_each (lineage (B.Ledger.model host.now) place) (marks_of self.old) }
        ensures newest { newest_of self.new ≡ newest_of self.old }
    {
        let mut next = Some(place);
        while let Some(at) = next {
            self.set_mark(at);
            next = parent_of(host, at);
        }
    }

    // Marks a place and all that it hangs from.
    #[tactic(auto, using(eltoo::proofs::Safely::claim_marks, eltoo::proofs::Lineages::lineages_list))]
    pub fn mark_lineage<B: Host>(&mut self, host: &B, place: usize)
        ensures marks { marks_of self.new ≡ mark_each (lineage (B.Ledger.model host.now) place) (marks_of self.old) }
        ensures newest { newest_of self.new ≡ newest_of self.old }
        ensures which { ClaimMarks }
        ensures lineages { LineagesList }
    {
        self.set_marks(host, place);
    }
}
