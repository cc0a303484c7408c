// What a call that asks is put to: a record that is lent, or a plan. One contract holds for both.
ghost use Rattle.std.specs.Prelude.{◌≡◌, ℕ, List};

use tree::Plan;

pub trait PlanRecord {
    // The 1,408 numbers of the record.
    ghost numbers: { Self → List ℕ };

    fn rows(&self) -> &[u16; 1408]
        ensures { result.now ≡ numbers self.now };
}

impl PlanRecord for [u16; 1408] {
    ghost numbers = { λ rows. rows };

    fn rows(&self) -> &[u16; 1408] {
        self
    }
}

impl PlanRecord for Plan {
    ghost numbers = { λ plan. plan.rows };

    fn rows(&self) -> &[u16; 1408] {
        &self.rows
    }
}
