// Asking the plan: what owner, show and turns read from the record of a tree; the rest of an idle round in `rest`, the
// figures of a sheet in `sheet`.
#![tactic(auto)]

ghost use Rattle.std.specs.Prelude.{◌≡◌, suc, ◌+◌, ◌/◌, ◌<◌, eqb, length, option_map};
ghost use Rattle.tree.specs.Tree.{product, sum};
ghost use Rattle.tree.specs.Record.{path_at};
ghost use Rattle.tree.specs.Answered.{line_number};
ghost use Rattle.bridge.specs.Rows.{tree_of_rows};
ghost use Rattle.paths.specs.Rules.{line_under, walk_on_paths, owner_on_paths};
ghost use Rattle.asking.specs.Answers.{takes_edge, first_open};
ghost use Rattle.asking.specs.Visits.{Visits};

use crate::round::Round;
use crate::times::Times;
use paths::record::TreeRecord;
use tree::line::Line;
use tree::{Period, Start};

pub mod rest;
pub mod round;
pub mod sheet;
pub mod times;

// A node on a path is given by line and level here: of its step only the walk knows, and nothing of its offset.

// Line `other` takes this edge of the node at a level of line `line`'s path. The edge is looked at first: most lines fail there.
fn takes_edge(rows: &[u16; 1408], line: Line, other: Line, level: usize, edge: u16) -> bool
    requires { level < 11 }
    ensures { result ≡ takes_edge (path_at rows.now) (path_at rows.now line.number) level edge other.number }
{
    if paths::edge(rows, other, level) != edge {
        return false;
    }
    paths::same_node(rows, line, other, level)
}

// The line of smallest number that takes this edge of the node at a level of line `line`'s path.
fn line_under(rows: &[u16; 1408], line: Line, level: usize, edge: u16) -> Option<Line>
    requires { level < 11 }
    ensures { option_map line_number result ≡ line_under (path_at rows.now) (path_at rows.now line.number) level edge }
{
    for number in 0..64 {
        let other = Line { number };
        if takes_edge(rows, line, other, level, edge) {
            return Some(other);
        }
    }
    None
}

// The open line of smallest number. Its path goes through the root, as every open line's does.
fn first_open(rows: &[u16; 1408]) -> Option<Line>
    ensures { option_map line_number result ≡ first_open (path_at rows.now) }
{
    for number in 0..64 {
        let line = Line { number };
        if !paths::is_closed(rows, line) {
            return Some(line);
        }
    }
    None
}

// A path that goes through a node at this level ends under it.
fn ends_below(rows: &[u16; 1408], line: Line, level: usize) -> bool
    requires { level < length (path_at rows.now line.number) }
    ensures { result ≡ eqb (length (path_at rows.now line.number)) (suc level) }
{
    if level == 10 {
        return true;
    }
    paths::weight(rows, line, level + 1) == 0
}

// The walk for a round, from the node at a level of a line's path to the child that the round selects, through at most
// `left` nodes: document 01 names the recursion. It carries the step of the node that it visits.
fn walk(
    tree: TreeRecord<'_>,
    line: Line,
    level: usize,
    left: usize,
    step: u64,
    round: Round,
) -> Option<Line>
    requires { Visits (tree_of_rows tree.rows.now) line.number level step (round.from + round.ahead) }
    ensures { option_map line_number result ≡ walk_on_paths (path_at tree.entry.rows.now) left line.number level ((round.from + round.ahead) / step) }
{
    if left == 0 {
        return None;
    }
    let child_step = step * paths::weight(tree.rows, line, level) as u64;
    let edge = round.remainder(child_step) / step;
    let next = line_under(tree.rows, line, level, edge as u16)?;
    if ends_below(tree.rows, next, level) {
        return Some(next);
    }
    walk(tree, next, level + 1, left - 1, child_step, round)
}

// The owner of a round, nothing where it is idle: the walk goes down from the root, whose step is 1. An empty plan is idle.
pub fn owner_of(tree: TreeRecord<'_>, round: Round) -> Option<Line>
    ensures { option_map line_number result ≡ owner_on_paths (path_at tree.entry.rows.now) (round.from + round.ahead) }
{
    let line = first_open(tree.rows)?;
    walk(tree, line, 0, 11, 1, round)
}

// The period and the start of an open line. Of a closed line they are 1 and 0.
pub fn times_of(tree: TreeRecord<'_>, line: Line) -> Times
    ensures { (result.period.0 ≡ product (path_at tree.entry.rows.now line.number)) × (result.start.0 ≡ sum (path_at tree.entry.rows.now line.number)) }
{
    let mut product: u16 = 1;
    let mut sum: u16 = 0;
    for k in 0..11 {
        let row = paths::row(tree.rows, line, k);
        if row.weight == 0 {
            break;
        }
        sum += row.edge * product;
        product *= row.weight;
    }
    Times {
        period: Period(product),
        start: Start(sum),
    }
}
