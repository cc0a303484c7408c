// The checks of an open in their sequence, and its search for a candidate, in the lent record of a tree. Open and trial share
// them; nothing is written.
ghost use Rattle.lines.specs.Checks.{Searched, OpenChecked};

use candidates::best_candidate;
use candidates::open_lines::open_lines;
use candidates::spot::Spot;
use paths::record::TreeRecord;
use tree::Period;
use tree::line::Line;
use tree::refusal::Refusal;

// Where a line can be booked: the line, and the chosen candidate, or none in the empty plan, where it gets the root.
#[derive(Clone, Copy)]
pub struct Room {
    pub line: Line,
    pub spot: Option<Spot>,
}

// Room for a period: the chosen candidate, or none in the empty plan, where the first line gets the root. Refused with 5 where
// there is no room.
fn find_room(tree: TreeRecord<'_>, period: Period) -> Result<Option<Spot>, Refusal>
    ensures { Searched tree.entry.rows.now period.0 result }
{
    let lines = open_lines(tree);
    if lines.end == 0 {
        return Ok(None);
    }
    let Some(spot) = best_candidate(lines, period) else {
        return Err(Refusal::NoRoom);
    };
    Ok(Some(spot))
}

// The checks of an open and the search: refused with 1 for a line above 63, 2 for a period out of range, 3 for a line that is
// open, 5 where there is no candidate.
pub fn check_open(tree: TreeRecord<'_>, line: u64, period: Period) -> Result<Room, Refusal>
    ensures { OpenChecked tree.entry.rows.now line period.0 result }
{
    let line = Line::try_from(line)?;
    if period.is_out_of_range() {
        return Err(Refusal::PeriodOutOfRange);
    }
    if !paths::is_closed(tree.rows, line) {
        return Err(Refusal::LineOpen);
    }
    let spot = find_room(tree, period)?;
    Ok(Room { line, spot })
}
