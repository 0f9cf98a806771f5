ghost use Rattle.std.specs.Prelude.{◌≡◌, ℕ, ◌+◌, ◌<◌, slice_index};
ghost use Rattle.account.specs.Accounts.{Bounded};
ghost use Rattle.state.specs.Limits.{parties};

use crate::parts::Part;

// What each of the eight parties was paid by settled channels, and the sum of the values of open and posted places.
#[derive(Clone, Copy, Default)]
pub struct Account {
    pub paid: [u128; 8],
    pub standing: u128,
}

impl Account {
    // Adds what one place adds.
    pub(crate) fn add(&mut self, part: &Part)
        requires { Bounded self.old 64 }
        ensures paid { (j : ℕ) → j < parties → slice_index self.new.paid j ≡ slice_index self.old.paid j + slice_index part.now.paid j }
        ensures standing { self.new.standing ≡ self.old.standing + part.now.standing }
    {
        self.paid = std::array::from_fn(|j| self.paid[j] + u128::from(part.paid[j]));
        self.standing += u128::from(part.standing);
    }
}
