// Opening and closing a line in the lent array of a legal plan record. The record stays as it was where the call is refused.
// That it is legal is a `requires` here and in `lists`, since no type can hold the array and that fact while it is written.
#![tactic(auto)]

ghost use Rattle.std.specs.Prelude.{◌≡◌, true, false};
ghost use Rattle.tree.specs.Calls.{open_line, close_line, booked, done};
ghost use Rattle.tree.specs.Record.{path_at, no_rows, legal};
ghost use Rattle.candidates.specs.Answers.{spot_in};
ghost use Rattle.bridge.specs.Rows.{CarriedOut};
ghost use Rattle.lines.specs.Answers.{open_answer, close_answer};
ghost use Rattle.lines.specs.Bookable.{BookableAt, SplittableIfSmaller, split_if_smaller};

use candidates::spot::Spot;
use paths::path_rows::rows_of;
use paths::record::TreeRecord;
use tree::line::Line;
use tree::refusal::Refusal;
use tree::{Period, Row, Start};

pub mod check;

// A line that is open goes, and those of its ancestors that remain are joined. Its path is read before it goes.
pub fn close_open_line(rows: &mut [u16; 1408], line: Line)
    requires { (legal rows.old ≡ true) × (no_rows (path_at rows.old line.number) ≡ false) }
    ensures { CarriedOut (close_line line.number) rows.old rows.new done }
{
    let count = paths::path_length(rows, line);
    let path = rows_of(TreeRecord { rows }, line);
    booking::clear_line(rows, line);
    joining::levels::join_up(rows, &path, count);
}

// Close: 1 for a line above 63, 4 for one that is not open; else the line goes.
pub fn close_line(rows: &mut [u16; 1408], line: u64) -> Result<(), Refusal>
    requires { legal rows.old ≡ true }
    ensures { CarriedOut (close_line line) rows.old rows.new (close_answer result) }
{
    let line = Line::try_from(line)?;
    let Some(_) = paths::find(rows, line) else {
        return Err(Refusal::LineNotOpen);
    };
    close_open_line(rows, line);
    Ok(())
}

// The node at a level of a line's path is split by d where d is below its weight.
fn split_if_smaller(rows: &mut [u16; 1408], line: Line, level: usize, d: u16)
    requires { SplittableIfSmaller rows.old line.number level d }
    ensures { rows.new ≡ split_if_smaller rows.old line.number level d }
{
    if d < paths::weight(rows, line, level) {
        booking::split_node(rows, line, level, d);
    }
}

// The line is booked at the chosen candidate.
fn book_at(rows: &mut [u16; 1408], line: Line, period: Period, spot: Spot) -> Start
    requires { BookableAt rows.old line.number period.0 (spot_in spot) }
    ensures { CarriedOut (open_line line.number period.0) rows.old rows.new (booked result.0) }
{
    let node = spot.node;
    let quotient = period.0 / (node.step * spot.divisor);
    split_if_smaller(rows, node.line, node.level, spot.divisor);
    let row = Row {
        weight: spot.divisor,
        edge: spot.class,
    };
    booking::place_line(rows, line, node.line, node.level, row, quotient);
    spot.start()
}

// Open: refused with 1, 2, 3 or 5, as its checks say; else the line is booked, the first line of a plan under a root of its
// period, another one at the chosen candidate.
pub fn open_line(rows: &mut [u16; 1408], line: u64, period: Period) -> Result<Start, Refusal>
    requires { legal rows.old ≡ true }
    ensures { CarriedOut (open_line line period.0) rows.old rows.new (open_answer result) }
{
    let room = check::check_open(TreeRecord { rows }, line, period)?;
    let Some(spot) = room.spot else {
        booking::place_first(rows, room.line, period);
        return Ok(Start(0));
    };
    Ok(book_at(rows, room.line, period, spot))
}
