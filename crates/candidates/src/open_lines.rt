// The open lines of a lent plan record, up to their end.
ghost use Rattle.std.specs.Prelude.{◌≡◌};
ghost use Rattle.candidates.specs.Edges.{ClosedFrom, EndOfLines};

use paths::is_closed;
use paths::record::TreeRecord;
use tree::line::Line;

// The record, and the end of its open lines: those from there on are closed.
#[derive(Clone, Copy)]
pub struct OpenLines<'a> {
    pub record: TreeRecord<'a>,
    pub end: usize,
    ghost closed_from: { ClosedFrom record.rows.now end },
}

// One more than the largest number of an open line, 0 in the empty plan.
pub fn lines_end(rows: &[u16; 1408]) -> usize
    ensures { EndOfLines rows.now result }
{
    for number in (0..64).rev() {
        if !is_closed(rows, Line { number }) {
            return number + 1;
        }
    }
    0
}

// The open lines of a record that is a tree.
pub fn open_lines(tree: TreeRecord<'_>) -> OpenLines<'_>
    ensures same_record { result.record.rows.now ≡ tree.entry.rows.now }
    ensures end { EndOfLines tree.entry.rows.now result.end }
{
    OpenLines {
        record: tree,
        end: lines_end(tree.rows),
    }
}
