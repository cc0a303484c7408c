// The trial of an open, and the open after it. A record that is no tree is answered as the empty plan.
ghost use Rattle.std.specs.Prelude.{◌≡◌};
ghost use Rattle.tree.specs.Answered.{outcome_of};
ghost use Rattle.tree.specs.Trial.{trial_outcome};
ghost use Rattle.bridge.specs.Rows.{tree_of_rows};
ghost use Rattle.trials.specs.Answers.{trial_told};
ghost use Rattle.plan.specs.Tried.{OpenedAsTried};

use crate::change::{empty, open};
use crate::record::PlanRecord;
use paths::record::TreeRecord;
use paths::tree_record::tree_record;
use tree::refusal::Refusal;
use tree::{Period, Plan, Start};
use trials::Trial;

// What an open of a line would do: its start, how many nodes it would add and if it would split one; or the refusal that it
// would meet: 1, 2, 3 or 5, the first that applies.
pub fn trial<P: PlanRecord>(plan: &P, line: u64, period: Period) -> Result<Trial, Refusal>
    ensures { outcome_of trial_told result ≡ trial_outcome line period.0 (tree_of_rows (P.numbers plan.now)) }
{
    if let Some(tree) = tree_record(plan.rows()) {
        return trials::trial_line(tree, line, period);
    }
    let fresh = empty();
    trials::trial_line(TreeRecord { rows: &fresh.rows }, line, period)
}

// What a trial told, and what the open after it gave.
#[derive(Clone, Copy)]
pub struct TriedThenOpened {
    pub told: Result<Trial, Refusal>,
    pub answer: Result<Start, Refusal>,
    pub plan: Plan,
}

// A trial, then the open on the same plan, which does what the trial said.
pub fn tried_then_opened(plan: Plan, line: u64, period: Period) -> TriedThenOpened
    ensures { OpenedAsTried line period.0 plan result.told result.answer result.plan }
{
    let told = trial(&plan, line, period);
    let opened = open(plan, line, period);
    TriedThenOpened {
        told,
        answer: opened.answer,
        plan: opened.plan,
    }
}
