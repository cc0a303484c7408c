// The calls that change a plan: open and close, each on a record that is lent and with a plan by value. By value the plan
// after the call is given back, so that the two forms are no one function.
ghost use Rattle.std.specs.Prelude.{◌≡◌, false};
ghost use Rattle.tree.specs.Calls.{open_line, close_line};
ghost use Rattle.tree.specs.Record.{legal};
ghost use Rattle.bridge.specs.Rows.{CarriedOut};
ghost use Rattle.lines.specs.Answers.{open_answer, close_answer};
ghost use Rattle.plan.specs.Meets.{empty_plan, Meets};

use crate::lookup::find_line;
use tree::changed::Changed;
use tree::refusal::Refusal;
use tree::{Period, Plan, Start};

// The empty plan.
pub fn empty() -> Plan
    ensures { result ≡ empty_plan }
{
    Plan { rows: [0; 1408] }
}

// Opens a line in a record that is no tree: in the empty plan, which takes the record's place where the line is booked.
fn open_in_empty(rows: &mut [u16; 1408], line: u64, period: Period) -> Result<Start, Refusal>
    requires { legal rows.old ≡ false }
    ensures { CarriedOut (open_line line period.0) rows.old rows.new (open_answer result) }
{
    let mut fresh = empty();
    let start = lines::open_line(&mut fresh.rows, line, period)?;
    *rows = fresh.rows;
    Ok(start)
}

// Opens a line in a record that is lent: booked with its start, or refused with 1, 2, 3 or 5, the first that applies.
// The record is as found where the call is refused.
pub fn open_rows(rows: &mut [u16; 1408], line: u64, period: Period) -> Result<Start, Refusal>
    ensures { CarriedOut (open_line line period.0) rows.old rows.new (open_answer result) }
{
    if paths::legal(rows) {
        return lines::open_line(rows, line, period);
    }
    open_in_empty(rows, line, period)
}

// The same with a plan by value.
pub fn open(plan: Plan, line: u64, period: Period) -> Changed<Result<Start, Refusal>>
    ensures { Meets (open_line line period.0) plan (open_answer result.answer) result.plan }
{
    let mut next = plan;
    let answer = open_rows(&mut next.rows, line, period);
    Changed { answer, plan: next }
}

// Closes a line in a record that is lent, or refuses with 1 or 4. The record is as found where the call is refused.
pub fn close_rows(rows: &mut [u16; 1408], line: u64) -> Result<(), Refusal>
    ensures { CarriedOut (close_line line) rows.old rows.new (close_answer result) }
{
    let line = find_line(rows, line)?;
    lines::close_open_line(rows, line);
    Ok(())
}

// The same with a plan by value.
pub fn close(plan: Plan, line: u64) -> Changed<Result<(), Refusal>>
    ensures { Meets (close_line line) plan (close_answer result.answer) result.plan }
{
    let mut next = plan;
    let answer = close_rows(&mut next.rows, line);
    Changed { answer, plan: next }
}
