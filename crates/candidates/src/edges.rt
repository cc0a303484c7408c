// The present edges of a node, marked in 64 words of 64 bits: edge e is bit e % 64 of word e / 64. A weight is at most 4,095.
ghost use Rattle.std.specs.Prelude.{◌≡◌, ◌<◌, replicate};
ghost use Rattle.tree.specs.Record.{path_at};
ghost use Rattle.candidates.specs.Edges.{marked, with_mark, FirstThrough, MarksPresent};

use crate::open_lines::OpenLines;
use crate::spot::PathNode;
use paths::{edge, same_node};
use tree::line::Line;

// The edge is marked. Two functions over the words, and no type of their own: nothing else is done with them.
pub fn is_marked(marks: &[u64; 64], edge: usize) -> bool
    requires { edge < 4096 }
    ensures { result ≡ marked marks.now edge }
{
    let word = marks[edge / 64];
    (word >> (edge % 64)) % 2 == 1
}

// Marks an edge as well. A trial marks classes with it.
pub fn mark(marks: &mut [u64; 64], edge: usize)
    requires { edge < 4096 }
    ensures { marks.new ≡ with_mark marks.old edge }
{
    marks[edge / 64] |= 1 << (edge % 64);
}

// Marks the edges of a node that lines take: one pass over the lines, from the first whose path goes through the node up to the last open one.
pub(crate) fn mark_present(lines: OpenLines<'_>, node: PathNode, marks: &mut [u64; 64])
    requires first { FirstThrough lines.record.rows.now node.line.number node.level }
    requires none_marked { marks.old ≡ replicate 64 0 }
    ensures { let rows = lines.entry.record.rows.now in MarksPresent (path_at rows) (path_at rows node.line.number) node.level marks.new }
{
    let rows = lines.record.rows;
    for number in node.line.number..lines.end {
        let line = Line { number };
        if same_node(rows, node.line, line, node.level) {
            mark(marks, edge(rows, line, node.level) as usize);
        }
    }
}
