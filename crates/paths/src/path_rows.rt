// A line's path handed out by value.
ghost use Rattle.std.specs.Prelude.{◌≡◌};
ghost use Rattle.tree.specs.Asking.{rows_11};
ghost use Rattle.tree.specs.Record.{path_at};

use crate::record::TreeRecord;
use tree::Row;
use tree::line::Line;

// A line's path as 11 rows, unused ones 0 and 0: the record's own rows, since those after a path are 0 and 0 there too.
// It is built row by row, as document 01 has it.
pub fn rows_of(tree: TreeRecord<'_>, line: Line) -> [Row; 11]
    ensures { result ≡ rows_11 (path_at tree.entry.rows.now line.number) }
{
    let mut path = [Row { weight: 0, edge: 0 }; 11];
    for row in 0..11 {
        path[row] = crate::row(tree.rows, line, row);
    }
    path
}
