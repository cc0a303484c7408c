// The call that tells what stands in the way of a period.
ghost use Rattle.std.specs.Prelude.{◌≡◌};
ghost use Rattle.tree.specs.Tree.{Place};
ghost use Rattle.tree.specs.Calls.{reason_outcome};
ghost use Rattle.bridge.specs.Rows.{tree_of_rows};
ghost use Rattle.reasons.specs.Answers.{reason_told};
ghost use Rattle.gaplinte.specs.Answer.{answer_number};
ghost use Rattle.gaplinte.specs.Served.{reason_value, reason_number};

use crate::answers;
use reasons::Reason;

// The number for a reason: the line, or 64 where the node's step does not divide the period.
fn reason_value(reason: Reason) -> u64
    ensures { result ≡ reason_value (reason_told reason) }
{
    match reason {
        Reason::StepDoesNotDivide => 64,
        Reason::Line(line) => line,
    }
}

// What keeps a period from a class of the node at a level and an offset: the open line of lowest number under an edge of the
// class, or 64 where the node's step does not divide the period. A period of any size is checked whole.
pub fn gaplinte_reason(rows: &[u16; 1408], period: u64, level: u64, offset: u64, class: u64) -> i64
    ensures { let place : Place = record { level = level; offset = offset } in
        result ≡ answer_number (reason_number (reason_outcome period place class (tree_of_rows rows.now))) }
{
    let told = plan::reason::reason(rows, tree::period_asked(period), level, offset, class);
    answers::number(told.map(reason_value))
}
