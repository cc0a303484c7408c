// The calls that ask a plan for one number.
ghost use Rattle.std.specs.Prelude.{◌≡◌};
ghost use Rattle.tree.specs.Calls.{turns_outcome};
ghost use Rattle.bridge.specs.Rows.{tree_of_rows};
ghost use Rattle.plan.specs.Ask.{owner_answer};
ghost use Rattle.gaplinte.specs.Answer.{answer_number};
ghost use Rattle.gaplinte.specs.Served.{owner_value, owner_outcome, tree_outcome};

use crate::answers;
use plan::ask::OwnerAnswer;

// The number for an owner: its line, or 64 plus the rest where the round is idle.
pub(crate) fn owner_value(owner: OwnerAnswer) -> u64
    ensures { result ≡ owner_value (owner_answer owner) }
{
    match owner {
        OwnerAnswer::Line(line) => line,
        OwnerAnswer::Idle(rest) => 64 + u64::from(rest),
    }
}

// The owner of a round: its line, or 64 plus the rest where the round is idle. It is never refused.
pub fn gaplinte_owner(rows: &[u16; 1408], round: u64) -> i64
    ensures { result ≡ answer_number (owner_outcome round rows.now) }
{
    answers::number(Ok(owner_value(plan::ask::owner(rows, round))))
}

// Turns: how many rounds a line owns among so many that begin with `first`.
pub fn gaplinte_turns(rows: &[u16; 1408], line: u64, first: u64, rounds: u32) -> i64
    ensures { result ≡ answer_number (turns_outcome line first rounds (tree_of_rows rows.now)) }
{
    answers::number(plan::ask::turns(rows, line, first, rounds))
}

// Whether a record is a tree: 1, or 0 where every other call treats it as the empty plan. It is never refused.
pub fn gaplinte_is_tree(rows: &[u16; 1408]) -> i64
    ensures { result ≡ answer_number (tree_outcome rows.now) }
{
    answers::number(Ok(u64::from(paths::legal(rows))))
}
