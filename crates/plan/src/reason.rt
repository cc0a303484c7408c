// What stands in the way of a period, at a class of a node. A record that is no tree is answered as the empty plan, which has no node.
ghost use Rattle.std.specs.Prelude.{◌≡◌};
ghost use Rattle.tree.specs.Tree.{Place};
ghost use Rattle.tree.specs.Answered.{outcome_of};
ghost use Rattle.tree.specs.Calls.{reason_outcome};
ghost use Rattle.bridge.specs.Rows.{tree_of_rows};
ghost use Rattle.reasons.specs.Answers.{reason_told};

use crate::change::empty;
use crate::record::PlanRecord;
use paths::record::TreeRecord;
use paths::tree_record::tree_record;
use reasons::Reason;
use tree::Period;
use tree::refusal::Refusal;

// The reason that keeps a period from a class of the node at a level and an offset: the node's step does not divide the period,
// or the open line of lowest number stands under an edge of the class. Refused with 2, with 10 where no node is there, with 11
// where the step divides and the class is not below d, with 12 where no line stands in the class: the first that applies.
pub fn reason<P: PlanRecord>(
    plan: &P,
    period: Period,
    level: u64,
    offset: u64,
    class: u64,
) -> Result<Reason, Refusal>
    ensures { let place : Place = record { level = level; offset = offset } in
        outcome_of reason_told result ≡ reason_outcome period.0 place class (tree_of_rows (P.numbers plan.now)) }
{
    if let Some(tree) = tree_record(plan.rows()) {
        return reasons::reason_of(tree, period, level, offset, class);
    }
    let fresh = empty();
    reasons::reason_of(
        TreeRecord { rows: &fresh.rows },
        period,
        level,
        offset,
        class,
    )
}
