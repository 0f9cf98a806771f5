ghost use Rattle.std.specs.Prelude.{◌≡◌, ℕ, ◌<◌, ◌≤◌, [], ◌∷◌, ◌++◌, ◌↔◌, IsTrue, false, Ok, List, length, take};
ghost use Rattle.seal.specs.Registers.{holds, FilledWith, RowGives, register_meaning};
ghost use Rattle.seal.specs.Seals.{Signs};
ghost use Rattle.state.specs.Refusals.{Leaves};
ghost use Rattle.state.specs.declared.state.State.{State};

use crate::scheme::Scheme;
use state::refusal::Refusal;
use state::state::State;
use std::marker::Model;

// How many rows a register has.
pub const ROWS: usize = 256;

// The signed states, from row 0 up. A seal is the number of a row.
#[derive(Drop)]
pub struct Register {
    rows: [State; ROWS], // an array and not a Vec, since nothing is allocated
    filled: usize,
}

// In contracts a register is the list of the states that it has signed.
impl Model for Register {
    ghost Value = { List State };

    ghost view = { λ r. take r.filled r.rows };

    ghost invariant = { λ r. (length r.rows ≡ 256) × (r.filled ≤ 256) };
}

impl Register {
    // An empty register.
    pub fn new() -> Register
        ensures { result ≡ [] }
    {
        Register {
            rows: [State::blank(); ROWS],
            filled: 0,
        }
    }

    // How many rows are filled, and what being good means of any pair.
    #[tactic(auto, using(crate::proofs::Filling::filled_rows, crate::proofs::Filling::holds_past))]
    fn count(&self) -> usize
        ensures value { result ≡ length self.now }
        ensures most { result ≤ 256 }
        ensures past { (k : ℕ) (x : State) → result ≤ k → holds self.now k x ≡ false }
        ensures exact { (k : ℕ) (x : State) → IsTrue (holds self.now k x) ↔ FilledWith self.now k x }
    {
        self.filled
    }

    // Whether a filled row holds this state.
    #[tactic(auto, using(crate::proofs::Filling::filled_rows, crate::proofs::Filling::holds_among))]
    fn row_is(&self, row: usize, state: &State) -> bool
        requires { row < length self.now }
        ensures { result ≡ holds self.now row state.now }
    {
        let rows = &self.rows;
        rows[row] == *state
    }

    // Fills the next row, and says which it is.
    fn fill(&mut self, state: &State) -> usize
        requires { length self.old < 256 }
        ensures row { result ≡ length self.old }
        ensures rows { self.new ≡ self.old ++ (state.now ∷ []) }
        ensures signs { Signs RowGives (register_meaning self.old) state.now (Ok result) (register_meaning self.new) }
    {
        let row = self.filled;
        self.rows[row] = *state;
        self.filled = row + 1;
        row
    }
}

impl Scheme for Register {
    ghost seals = { register_meaning };

    ghost gives = { RowGives };

    fn sign(&mut self, state: &State) -> Result<u64, Refusal>
        ensures signs { Signs RowGives (register_meaning self.old) state.now result (register_meaning self.new) }
        ensures rows { Leaves result self.old self.new (λ seal. (seal ≡ length self.old) × (self.new ≡ self.old ++ (state.now ∷ []))) }
        ensures most { (length self.old ≤ 256) × (length self.new ≤ 256) }
    {
        if self.count() >= ROWS {
            return Err(Refusal::NoSealsLeft);
        }
        Ok(self.fill(state) as u64)
    }

    fn check(&self, state: &State, seal: u64) -> bool
        ensures good { result ≡ (register_meaning self.now).good state.now seal }
        ensures row { IsTrue result ↔ FilledWith self.now seal state.now }
        ensures most { length self.now ≤ 256 }
    {
        seal < self.count() as u64 && self.row_is(seal as usize, state)
    }

    fn left(&self) -> u64
        ensures left { result ≡ (register_meaning self.now).left }
        ensures most { length self.now ≤ 256 }
    {
        (ROWS - self.count()) as u64
    }
}
