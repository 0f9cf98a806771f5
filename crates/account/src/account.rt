ghost use Rattle.std.specs.Prelude.{◌≡◌, length};
ghost use Rattle.account.specs.Accounts.{Sums, Conserved};
ghost use Rattle.ledger.specs.Laws.{Lawful};

use crate::parts::part_of;
use crate::tally::Account;
use ledger::host::Ledger;

// The account of any ledger. No sum wraps. What is paid and what stands add up to the fundings of a lawful ledger.
#[tactic(auto, using(crate::proofs::Conserving::conserved))]
pub fn account_of<L: Ledger>(ledger: &L) -> Account
    ensures sums { Sums result (L.Ledger.model ledger.now) (length (L.Ledger.model ledger.now).places) }
    ensures conserved { Lawful (L.Ledger.model ledger.now) → Conserved (L.Ledger.model ledger.now) }
{
    let mut account = Account::default();
    // over the places' numbers: a ledger holds no list that could be gone through
    for place in 0..ledger.count() {
        account.add(&part_of(ledger, place));
    }
    account
}
