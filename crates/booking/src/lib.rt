// What an open and a close write into the lent array of a plan record: the rows of one line, or of all lines through a node.
// Row k of line L is the pair of numbers at 22 * L + 2 * k.
#![tactic(auto)]

ghost use Rattle.std.specs.Prelude.{◌≡◌, [], ◌∷◌, ◌<◌, take};
ghost use Rattle.tree.specs.Tree.{row};
ghost use Rattle.tree.specs.Record.{path_at};
ghost use Rattle.paths.specs.Rules.{set_line, split_path, split_lines, booked_path};
ghost use Rattle.booking.specs.Writing.{set_row, SplittableOnLine, Splittable, Placeable};

use paths::same_node;
use tree::line::Line;
use tree::{Period, Row};

// Row k of a line becomes another one.
#[tactic(auto, unfolding(crate::specs::Writing::set_row))]
pub fn put_row(rows: &mut [u16; 1408], line: Line, k: usize, row: Row)
    requires { k < 11 }
    ensures { rows.new ≡ set_row rows.old line.number k row }
{
    let at = 22 * line.number + 2 * k;
    rows[at] = row.weight;
    rows[at + 1] = row.edge;
}

// A line's rows become unused: the line is closed.
pub fn clear_line(rows: &mut [u16; 1408], line: Line)
    ensures { rows.new ≡ set_line rows.old line.number [] }
{
    let at = 22 * line.number;
    rows[at..at + 22].fill(0);
}

// The node at a level of a line's path is split by d, on this path alone: the rows after it move down by one, from the last on.
// They move row by row, here and in `place_line`: `copy_within` was proved too, and is slower (DECISIONS 156). Line and level
// are given one by one, since nothing here asks the node's step.
pub fn split_line(rows: &mut [u16; 1408], line: Line, level: usize, d: u16)
    requires { SplittableOnLine rows.old line.number level d }
    ensures { rows.new ≡ set_line rows.old line.number (split_path level d (path_at rows.old line.number)) }
{
    let before = paths::row(rows, line, level);
    for k in (level + 2..11).rev() {
        let moved = paths::row(rows, line, k - 1);
        put_row(rows, line, k, moved);
    }
    let group = Row {
        weight: before.weight / d,
        edge: before.edge / d,
    };
    put_row(rows, line, level + 1, group);
    let node = Row {
        weight: d,
        edge: before.edge % d,
    };
    put_row(rows, line, level, node);
}

// The node at a level of a line's path is split by d, on the path of each line that goes through it.
pub fn split_node(rows: &mut [u16; 1408], line: Line, level: usize, d: u16)
    requires { Splittable rows.old line.number level d }
    ensures { rows.new ≡ split_lines rows.old (path_at rows.old line.number) level d 64 }
{
    for number in 0..64 {
        let other = Line { number };
        if same_node(rows, line, other, level) {
            split_line(rows, other, level, d);
        }
    }
}

// The path of a new line is written: another line's path down to a level, then a row with the weight of the node there and the class,
// then a node of weight q with the line under its edge 0, unless q is 1.
pub fn place_line(rows: &mut [u16; 1408], line: Line, from: Line, level: usize, row: Row, q: u16)
    requires { Placeable rows.old line.number from.number level row.weight row.edge q }
    ensures { rows.new ≡ set_line rows.old line.number (booked_path (take level (path_at rows.old from.number)) row.weight row.edge q) }
{
    clear_line(rows, line);
    for k in 0..level {
        put_row(rows, line, k, paths::row(rows, from, k));
    }
    put_row(rows, line, level, row);
    if q != 1 {
        put_row(rows, line, level + 1, Row { weight: q, edge: 0 });
    }
}

// The path of the first line of a plan is written: its period becomes the root's weight, and the line stands under edge 0.
pub fn place_first(rows: &mut [u16; 1408], line: Line, period: Period)
    ensures { rows.new ≡ set_line rows.old line.number (row period.0 0 ∷ []) }
{
    clear_line(rows, line);
    let root = Row {
        weight: period.0,
        edge: 0,
    };
    put_row(rows, line, 0, root);
}
