// The calls that ask a plan: owner, show and turns. A record that is no tree is answered as the empty plan.
ghost use Rattle.std.specs.Prelude.{◌≡◌};
ghost use Rattle.tree.specs.Answered.{outcome_of};
ghost use Rattle.tree.specs.Asking.{owner_or_rest};
ghost use Rattle.tree.specs.Calls.{show_outcome, turns_outcome};
ghost use Rattle.bridge.specs.Rows.{tree_of_rows};
ghost use Rattle.plan.specs.Ask.{owner_answer, shown_in};

use crate::lookup::find_line;
use crate::record::PlanRecord;
use asking::round::Round;
use paths::path_rows::rows_of;
use paths::record::TreeRecord;
use paths::tree_record::tree_record;
use tree::refusal::Refusal;
use tree::{Period, Row, Start};

// The owner of a round: a line by its number or, where there is none, how many rounds lie from the round to the next
// owned one. Only in the empty plan are these 0. A round without an owner is no failure, so this is no Option or Result.
#[derive(Clone, Copy, Debug, PartialEq, Eq)]
pub enum OwnerAnswer {
    Line(u64),
    Idle(u16),
}

// A line's period, start and path.
#[derive(Clone, Copy)]
pub struct Shown {
    pub period: Period,
    pub start: Start,
    pub rows: [Row; 11],
}

// The owner of a round, or its rest. It never refuses. The next owned round may be past 2^64.
pub fn owner<P: PlanRecord>(plan: &P, round: u64) -> OwnerAnswer
    ensures { owner_answer result ≡ owner_or_rest round (tree_of_rows (P.numbers plan.now)) }
{
    let Some(tree) = tree_record(plan.rows()) else {
        return OwnerAnswer::Idle(0);
    };
    match asking::owner_of(
        tree,
        Round {
            from: round,
            ahead: 0,
        },
    ) {
        Some(line) => OwnerAnswer::Line(line.number as u64),
        None => OwnerAnswer::Idle(asking::rest::rest_of(tree, round)),
    }
}

// Shows a line: its period, its start and its path, or a refusal with 1 or 4.
pub fn show<P: PlanRecord>(plan: &P, line: u64) -> Result<Shown, Refusal>
    ensures { outcome_of shown_in result ≡ show_outcome line (tree_of_rows (P.numbers plan.now)) }
{
    let rows = plan.rows();
    let line = find_line(rows, line)?;
    let tree = TreeRecord { rows };
    let times = asking::times_of(tree, line);
    Ok(Shown {
        period: times.period,
        start: times.start,
        rows: rows_of(tree, line),
    })
}

// Turns: how many rounds a line owns among so many that begin with `first`, or a refusal with 1 or 4. The rounds are whole
// numbers and may pass 2^64. First round and number of rounds are two parameters, as the library has them.
pub fn turns<P: PlanRecord>(plan: &P, line: u64, first: u64, rounds: u32) -> Result<u64, Refusal>
    ensures { outcome_of (λ count. count) result ≡ turns_outcome line first rounds (tree_of_rows (P.numbers plan.now)) }
{
    let rows = plan.rows();
    let open = find_line(rows, line)?;
    let times = asking::times_of(TreeRecord { rows }, open);
    Ok(times.turns(first, rounds))
}
