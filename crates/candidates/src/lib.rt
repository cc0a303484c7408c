// The search for the chosen candidate, over the lent array of a legal plan record. It looks at no line from the end of the open lines on, since these are closed.
#![tactic(auto)]

ghost use Rattle.std.specs.Prelude.{◌≡◌, true, ◌+◌, ◌*◌, ◌<◌, ◌≤◌, length};
ghost use Rattle.tree.specs.Numbers.{gcd, divides};
ghost use Rattle.tree.specs.Search.{smaller_by};
ghost use Rattle.tree.specs.Record.{path_at};
ghost use Rattle.paths.specs.Rules.{spot_start, class_on_path, spot_at, best_on_path, best_of_lines};
ghost use Rattle.candidates.specs.Answers.{spot_of, starts_by};
ghost use Rattle.candidates.specs.Edges.{FirstThrough};
ghost use Rattle.candidates.specs.SearchedTo.{NodeOf, Reached, SearchedTo};

use open_lines::OpenLines;
use paths::{edge, is_closed, path_length, weight};
use spot::{PathNode, Spot};
use tree::Period;
use tree::line::Line;

pub mod edges;
pub mod open_lines;
pub mod spot;

// The greatest common divisor, by Euclid's algorithm. A `while`, since no index is counted: the remainder ends it.
pub fn gcd(a: u16, b: u16) -> u16
    ensures { result ≡ gcd a b }
{
    let mut larger = a;
    let mut smaller = b;
    while smaller != 0 {
        let rest = larger % smaller;
        larger = smaller;
        smaller = rest;
    }
    larger
}

// The smallest class modulo d none of whose edges is present, of a node that no earlier line goes through.
// The present edges are marked once; each that is met leaves to the next class, by label as document 01 has it.
pub fn free_class(lines: OpenLines<'_>, node: PathNode, d: u16) -> Option<u16>
    requires { FirstThrough lines.record.rows.now node.line.number node.level }
    ensures { let rows = lines.entry.record.rows.now in result ≡ class_on_path (path_at rows) (path_at rows node.line.number) node.level d }
{
    let mut present = [0; 64];
    edges::mark_present(lines, node, &mut present);
    let w = weight(lines.record.rows, node.line, node.level) as usize;
    'classes: for class in 0..d {
        for e in (class as usize..w).step_by(d as usize) {
            if edges::is_marked(&present, e) {
                continue 'classes;
            }
        }
        return Some(class);
    }
    None
}

// What a node has to offer, where its step divides the period.
fn spot_at(lines: OpenLines<'_>, node: PathNode, period: Period) -> Option<Spot>
    requires first { FirstThrough lines.record.rows.now node.line.number node.level }
    requires node_of { NodeOf (path_at lines.record.rows.now) node }
    requires step_divides { divides node.step period.0 ≡ true }
    ensures { spot_of result ≡ spot_at (path_at lines.entry.record.rows.now) period.0 node.line.number node.level }
{
    let w = weight(lines.record.rows, node.line, node.level);
    let divisor = gcd(w, period.0 / node.step);
    let class = free_class(lines, node, divisor)?;
    Some(Spot {
        node,
        divisor,
        class,
    })
}

// The best start so far is not above a round. What is offered from that round on is then no better.
fn starts_by(best: Option<Spot>, round: u16) -> bool
    ensures { result ≡ starts_by (spot_of best) round }
{
    let Some(spot) = best else {
        return false;
    };
    spot.start().0 <= round
}

// The better of the best so far and what a node has to offer: the one of smaller start.
// Where the line takes edge 0 there, class 0 is taken whatever d is, and nothing starts before offset + step: often no class has
// to be searched for.
fn better(lines: OpenLines<'_>, node: PathNode, period: Period, best: Option<Spot>) -> Option<Spot>
    requires first { FirstThrough lines.record.rows.now node.line.number node.level }
    requires node_of { NodeOf (path_at lines.record.rows.now) node }
    requires step_divides { divides node.step period.0 ≡ true }
    ensures { spot_of result ≡ smaller_by spot_start (spot_of best) (spot_at (path_at lines.entry.record.rows.now) period.0 node.line.number node.level) }
{
    let edge = edge(lines.record.rows, node.line, node.level);
    if edge == 0 && starts_by(best, node.offset + node.step) {
        return best;
    }
    let Some(spot) = spot_at(lines, node, period) else {
        return best;
    };
    if starts_by(best, spot.start().0) {
        return best;
    }
    Some(spot)
}

// A node is looked at once, on the first path through it: `seen` has for each offset 1 + the largest level looked at there, and 0
// where none was. The path to that level goes through all nodes of this offset, so that the smaller levels were looked at too.
fn look_at(
    lines: OpenLines<'_>,
    node: PathNode,
    period: Period,
    seen: &mut [u8; 2047],
    best: Option<Spot>,
) -> Option<Spot>
    requires node_of { NodeOf (path_at lines.record.rows.now) node }
    requires reached { Reached period.0 (spot_of best) (path_at lines.record.rows.now node.line.number) node.level }
    requires searched { SearchedTo (path_at lines.record.rows.now) period.0 node.line.number node.level (spot_of best) seen.old }
    ensures { SearchedTo (path_at lines.entry.record.rows.now) period.0 node.line.number (node.level + 1) (spot_of result) seen.new }
{
    let at = node.offset as usize;
    if node.level < seen[at] as usize {
        return best;
    }
    seen[at] = node.level as u8 + 1;
    better(lines, node, period, best)
}

// The best of the earlier lines, or the best node of a line's path where that is better. The path is left where its offset is not
// below the best start so far, as no deeper one is, and where its step does not divide the period, as no deeper one does.
fn best_on_path(
    lines: OpenLines<'_>,
    line: Line,
    period: Period,
    seen: &mut [u8; 2047],
    earlier: Option<Spot>,
) -> Option<Spot>
    requires { SearchedTo (path_at lines.record.rows.now) period.0 line.number 0 (spot_of earlier) seen.old }
    ensures { SearchedTo (path_at lines.entry.record.rows.now) period.0 (line.number + 1) 0 (spot_of result) seen.new }
{
    let rows = lines.record.rows;
    let mut best = earlier;
    let mut step: u16 = 1;
    let mut offset: u16 = 0;
    for level in 0..path_length(rows, line) {
        if starts_by(best, offset) {
            return best;
        }
        if period.0 % step != 0 {
            return best;
        }
        let node = PathNode {
            line,
            level,
            step,
            offset,
        };
        best = look_at(lines, node, period, seen, best);
        offset += edge(rows, line, level) * step;
        step *= weight(rows, line, level);
    }
    best
}

// The chosen candidate for a period: of all levels, the one of smallest start. A closed line is passed without a copy of the best
// so far.
pub fn best_candidate(lines: OpenLines<'_>, period: Period) -> Option<Spot>
    ensures { spot_of result ≡ best_of_lines (path_at lines.entry.record.rows.now) period.0 64 }
{
    let mut seen = [0; 2047];
    let mut best = None;
    for number in 0..lines.end {
        let line = Line { number };
        if is_closed(lines.record.rows, line) {
            continue;
        }
        best = best_on_path(lines, line, period, &mut seen, best);
    }
    best
}
