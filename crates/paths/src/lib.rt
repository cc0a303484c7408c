// The paths of a plan record, read from its lent array, and the check that the record is a tree.
// Row k of line L is the pair of numbers at 22 * L + 2 * k; a path is a line's rows up to the first of weight 0.
#![tactic(auto)]

ghost use Rattle.std.specs.Prelude.{◌≡◌, true, ◌+◌, ◌<◌, ◌≤◌, length};
ghost use Rattle.tree.specs.Record.{row_at, path_at, rest_unused, no_rows, parts, legal};
ghost use Rattle.paths.specs.Rules.{same_node};
ghost use Rattle.paths.specs.Answers.{lookup, rows_checked, path_checked, line_legal};
ghost use Rattle.paths.specs.Passed.{PassedBelow};

use crate::chains::Chains;
use crate::passed::{Passed, joins_passed};
use tree::Row;
use tree::line::Line;

mod chains;
mod passed;
pub mod path_rows;
pub mod record;
pub mod tree_record;

// Rows and levels are numbers with a `requires`, here and in the crates above: they are counted on between a loop and a call
// (level + 1, k - 1), where a type with the fact would be taken apart and made again.

// The weight in row k of a line: of the node passed there, 0 where the row is not used.
pub fn weight(rows: &[u16; 1408], line: Line, k: usize) -> u16
    requires { k < 11 }
    ensures { result ≡ (row_at rows.now line.number k).weight }
{
    rows[22 * line.number + 2 * k]
}

// The edge in row k of a line: the one taken at the node of that row.
pub fn edge(rows: &[u16; 1408], line: Line, k: usize) -> u16
    requires { k < 11 }
    ensures { result ≡ (row_at rows.now line.number k).edge }
{
    rows[22 * line.number + 2 * k + 1]
}

// Row k of a line: the weight and the edge there.
pub fn row(rows: &[u16; 1408], line: Line, k: usize) -> Row
    requires { k < 11 }
    ensures { result ≡ row_at rows.now line.number k }
{
    Row {
        weight: weight(rows, line, k),
        edge: edge(rows, line, k),
    }
}

// The number of rows of a line's path, which is that of the nodes above the line. It is 0 where the line is closed.
pub fn path_length(rows: &[u16; 1408], line: Line) -> usize
    ensures { result ≡ length (path_at rows.now line.number) }
{
    for count in 0..11 {
        if weight(rows, line, count) == 0 {
            return count;
        }
    }
    11
}

// The lookup of a line: the number of rows of its path where it is open, else nothing (refusal 4).
pub fn find(rows: &[u16; 1408], line: Line) -> Option<usize>
    ensures { result ≡ lookup (path_at rows.now line.number) }
{
    let count = path_length(rows, line);
    if count == 0 {
        return None;
    }
    Some(count)
}

// The line is closed: its path has no rows.
pub fn is_closed(rows: &[u16; 1408], line: Line) -> bool
    ensures { result ≡ no_rows (path_at rows.now line.number) }
{
    weight(rows, line, 0) == 0
}

// Two paths part: they go through the same nodes, up to one that they leave by different edges.
// So neither line stands at the other's place or on its way.
pub fn parts(rows: &[u16; 1408], a: Line, b: Line) -> bool
    ensures { result ≡ parts (path_at rows.now a.number) (path_at rows.now b.number) }
{
    for k in 0..11 {
        let w = weight(rows, a, k);
        if w == 0 {
            return false;
        }
        if weight(rows, b, k) != w {
            return false;
        }
        if edge(rows, a, k) != edge(rows, b, k) {
            return true;
        }
    }
    false
}

// Two paths go through the same node at a level: the same edges so far, and both go on.
// What most often differs is looked at first: whether the second path comes so far, and at each node the edges.
pub fn same_node(rows: &[u16; 1408], a: Line, b: Line, level: usize) -> bool
    requires { level < 11 }
    ensures { result ≡ same_node level (path_at rows.now a.number) (path_at rows.now b.number) }
{
    if weight(rows, b, level) == 0 {
        return false;
    }
    if weight(rows, a, level) == 0 {
        return false;
    }
    for k in 0..level {
        if edge(rows, a, k) != edge(rows, b, k) {
            return false;
        }
        if weight(rows, a, k) == 0 {
            return false;
        }
        if weight(rows, b, k) == 0 {
            return false;
        }
    }
    true
}

// A path's rows are in range: each weight at least 2, each edge below its weight, the period at most 4,095.
// The product is tested at each row, so that it never gets large.
fn check_rows(rows: &[u16; 1408], line: Line) -> Option<usize>
    ensures { result ≡ rows_checked (path_at rows.now line.number) }
{
    let mut product: u32 = 1;
    for k in 0..11 {
        let w = weight(rows, line, k);
        if w == 0 {
            return Some(k);
        }
        if w < 2 {
            return None;
        }
        if w <= edge(rows, line, k) {
            return None;
        }
        product = product * (w as u32);
        if 4095 < product {
            return None;
        }
    }
    Some(11)
}

// A path is in range: its rows are, or it is that of a line with a root of weight 1 to itself.
fn check_path(rows: &[u16; 1408], line: Line) -> Option<usize>
    ensures { result ≡ path_checked (path_at rows.now line.number) }
{
    if weight(rows, line, 0) != 1 {
        return check_rows(rows, line);
    }
    if edge(rows, line, 0) != 0 {
        return None;
    }
    if weight(rows, line, 1) != 0 {
        return None;
    }
    Some(1)
}

// The sum of a row's two numbers. It is 0 exactly where both are, and one test serves for both.
fn row_sum(rows: &[u16; 1408], line: Line, k: usize) -> u32
    requires { k < 11 }
    ensures value { result ≡ (row_at rows.now line.number k).weight + (row_at rows.now line.number k).edge }
    ensures upper_bound { result ≤ 131070 }
{
    weight(rows, line, k) as u32 + edge(rows, line, k) as u32
}

// The rows of a line after its path are 0 and 0. The path has `count` rows.
fn rest_unused(rows: &[u16; 1408], line: Line, count: usize) -> bool
    requires { count ≡ length (path_at rows.now line.number) }
    ensures { result ≡ rest_unused rows.now line.number }
{
    for k in count..11 {
        if row_sum(rows, line, k) != 0 {
            return false;
        }
    }
    true
}

// The rows of a closed line are 0 and 0. They are summed up before the one test, so that the loop always has 11 turns
// and its rows are read several at a time.
fn closed_unused(rows: &[u16; 1408], line: Line) -> bool
    requires { no_rows (path_at rows.now line.number) ≡ true }
    ensures { result ≡ rest_unused rows.now line.number }
{
    let mut sum: u32 = 0;
    for k in 0..11 {
        sum += row_sum(rows, line, k);
    }
    sum == 0
}

// What the record says of one line is right, by itself and beside the lines passed; then it is one of them.
fn line_legal(rows: &[u16; 1408], line: Line, passed: &mut Passed) -> bool
    requires { PassedBelow rows.now line.number passed.old }
    ensures answer { result ≡ line_legal rows.now line.number }
    ensures passed { result ≡ true → PassedBelow rows.now (line.number + 1) passed.new }
{
    if is_closed(rows, line) {
        return closed_unused(rows, line);
    }
    let Some(count) = check_path(rows, line) else {
        return false;
    };
    if !rest_unused(rows, line, count) {
        return false;
    }
    joins_passed(rows, line, passed)
}

// The record is a tree. Stops at the first line that is wrong.
pub fn legal(rows: &[u16; 1408]) -> bool
    ensures { result ≡ legal rows.now }
{
    let mut passed = Passed {
        root: 0,
        chains: Chains::empty(),
    };
    for number in 0..64 {
        if !line_legal(rows, Line { number }, &mut passed) {
            return false;
        }
    }
    true
}
