// What a close writes into the lent array of a plan record where it joins nodes: each line through the node has two rows that
// become one. The lines through a node of the closed line's path are known by the nodes in common with it (`common`).
#![tactic(auto)]

ghost use Rattle.std.specs.Prelude.{◌≡◌, ◌<◌, true, false};
ghost use Rattle.tree.specs.Record.{path_at};
ghost use Rattle.paths.specs.Rules.{set_line, change_lines, join_path, weight_below_on_paths};
ghost use Rattle.joining.specs.Common.{through};
ghost use Rattle.joining.specs.Joinable.{RestUnused, joined_row, JoinableRows, JoinableOnLine, Joinable};

use booking::put_row;
use paths::weight;
use tree::Row;
use tree::line::Line;

mod common;
pub mod levels;

// Whether a weight below a node is another than that of the lines before, v, which is 0 where there were none. The weight 0, where
// a line stands, always is.
fn is_another(v: u16, w: u16) -> bool
    ensures another { result ≡ true → 0 < w → (0 < v) × (w ≡ v → ⊥) }
    ensures same { result ≡ false → (0 < w) × (0 < v → w ≡ v) }
{
    w == 0 || (v != 0 && w != v)
}

// The one weight of the nodes to which all edges of the node at a level lead. There is none where no line goes through it, where
// a line stands under an edge, which has the weight 0 there, or where two of those weights differ.
pub(crate) fn weight_below(rows: &[u16; 1408], common: &[u8; 64], level: usize) -> Option<u16>
    requires level { level < 10 }
    requires rest { RestUnused rows.now (through common.now level) }
    ensures { result ≡ weight_below_on_paths (path_at rows.now) (through common.now level) level }
{
    let mut v = 0;
    for number in 0..64 {
        if level < common[number] as usize {
            let w = weight(rows, Line { number }, level + 1);
            if is_another(v, w) {
                return None;
            }
            v = w;
        }
    }
    if v == 0 {
        return None;
    }
    Some(v)
}

// The row that two rows become where their nodes are joined.
fn joined(node: Row, child: Row) -> Row
    requires { JoinableRows node child }
    ensures { result ≡ joined_row node child }
{
    Row {
        weight: node.weight * child.weight,
        edge: node.edge + node.weight * child.edge,
    }
}

// The node at a level of a line's path is joined with the one below it, on this path alone: the rows after them move up by one,
// from the first on, and the last row becomes unused.
fn join_line(rows: &mut [u16; 1408], line: Line, level: usize)
    requires { JoinableOnLine rows.old line.number level }
    ensures { rows.new ≡ set_line rows.old line.number (join_path level (path_at rows.old line.number)) }
{
    let node = paths::row(rows, line, level);
    let child = paths::row(rows, line, level + 1);
    for k in level + 2..11 {
        let moved = paths::row(rows, line, k);
        put_row(rows, line, k - 1, moved);
    }
    put_row(rows, line, 10, Row { weight: 0, edge: 0 });
    put_row(rows, line, level, joined(node, child));
}

// The node at a level is joined with the nodes below it, on the path of each line that goes through it.
pub(crate) fn join_node(rows: &mut [u16; 1408], common: &[u8; 64], level: usize)
    requires { Joinable rows.old (through common.now level) level }
    ensures { rows.new ≡ change_lines rows.old (through common.now level) (join_path level) 64 }
{
    for number in 0..64 {
        if level < common[number] as usize {
            join_line(rows, Line { number }, level);
        }
    }
}
