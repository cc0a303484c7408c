// The lookup of a line, which close, show and turns share.
ghost use Rattle.std.specs.Prelude.{◌≡◌};
ghost use Rattle.plan.specs.Lookup.{line_found, LookedUp};

use paths::tree_record::tree_record;
use tree::line::Line;
use tree::refusal::Refusal;

// The lookup of a line in a record that need not be a tree: the empty plan has no line.
fn lookup(rows: &[u16; 1408], line: Line) -> Option<usize>
    ensures { result ≡ line_found rows.now line.number }
{
    tree_record(rows)?;
    paths::find(rows, line)
}

// An open line by its number. Refused with 1 for a line above 63, with 4 for one that is not open.
pub(crate) fn find_line(rows: &[u16; 1408], number: u64) -> Result<Line, Refusal>
    ensures { LookedUp rows.now number result }
{
    let line = Line::try_from(number)?;
    let Some(_) = lookup(rows, line) else {
        return Err(Refusal::LineNotOpen);
    };
    Ok(line)
}
