// What stands in the way of a period at a class of a node, told from the lent record of a tree. Nothing is written.
#![tactic(auto)]

ghost use Rattle.std.specs.Prelude.{◌≡◌, ◌<◌, length, option_map};
ghost use Rattle.tree.specs.Tree.{Place};
ghost use Rattle.tree.specs.Calls.{reason_outcome};
ghost use Rattle.tree.specs.Answered.{outcome_of};
ghost use Rattle.tree.specs.Record.{path_at};
ghost use Rattle.tree.specs.Answered.{line_number};
ghost use Rattle.bridge.specs.Rows.{tree_of_rows};
ghost use Rattle.paths.specs.Rules.{line_of_class, reason_on_path};
ghost use Rattle.candidates.specs.SearchedTo.{NodeOf};
ghost use Rattle.reasons.specs.Answers.{reason_told, NodeFound};

use candidates::gcd;
use candidates::spot::PathNode;
use paths::record::TreeRecord;
use paths::{edge, path_length, same_node, weight};
use tree::Period;
use tree::line::Line;
use tree::refusal::Refusal;

// What stands in the way: the node's step does not divide the period, or the open line of lowest number under an edge of the class.
#[derive(Clone, Copy, Debug, PartialEq, Eq)]
pub enum Reason {
    StepDoesNotDivide,
    Line(u64),
}

// The node at a level of a line's path, with its step and its offset.
fn node_of(tree: TreeRecord<'_>, line: Line, level: usize) -> PathNode
    requires { level < length (path_at tree.rows.now line.number) }
    ensures numbers { NodeOf (path_at tree.entry.rows.now) result }
    ensures same { (result.line.number ≡ line.number) × (result.level ≡ level) }
{
    let mut step: u16 = 1;
    let mut offset: u16 = 0;
    for k in 0..level {
        offset += edge(tree.rows, line, k) * step;
        step *= weight(tree.rows, line, k);
    }
    PathNode {
        line,
        level,
        step,
        offset,
    }
}

// The node at a level and an offset, on the path of the line of smallest number that goes through it.
fn node_at(tree: TreeRecord<'_>, level: u64, offset: u64) -> Option<PathNode>
    ensures { NodeFound (path_at tree.entry.rows.now) level offset result }
{
    for number in 0..64 {
        let line = Line { number };
        if path_length(tree.rows, line) as u64 <= level {
            continue;
        }
        let node = node_of(tree, line, level as usize);
        if node.offset as u64 == offset {
            return Some(node);
        }
    }
    None
}

// The line of smallest number that takes an edge of this class modulo d at a node.
fn line_of_class(rows: &[u16; 1408], node: PathNode, d: u16, class: u64) -> Option<Line>
    requires level { node.level < 11 }
    requires divisor { 0 < d }
    ensures { option_map line_number result ≡ line_of_class (path_at rows.now) (path_at rows.now node.line.number) node.level d class }
{
    for number in 0..64 {
        let other = Line { number };
        if !same_node(rows, node.line, other, node.level) {
            continue;
        }
        if (edge(rows, other, node.level) % d) as u64 == class {
            return Some(other);
        }
    }
    None
}

// What stands in the way at a class of a node; refused with 11 where the class is none, with 12 where no line stands in it.
fn reason_at(
    tree: TreeRecord<'_>,
    node: PathNode,
    period: Period,
    class: u64,
) -> Result<Reason, Refusal>
    requires { NodeOf (path_at tree.rows.now) node }
    ensures { outcome_of reason_told result ≡ reason_on_path (path_at tree.entry.rows.now) period.0 node.line.number node.level class }
{
    if period.0 % node.step != 0 {
        return Ok(Reason::StepDoesNotDivide);
    }
    let w = weight(tree.rows, node.line, node.level);
    let d = gcd(w, period.0 / node.step);
    if d as u64 <= class {
        return Err(Refusal::NoClass);
    }
    let Some(line) = line_of_class(tree.rows, node, d, class) else {
        return Err(Refusal::NoLineInClass);
    };
    Ok(Reason::Line(line.number as u64))
}

// What stands in the way of a period at a class of the node at a level and an offset; refused with 2, 10, 11 or 12, the first that
// applies.
pub fn reason_of(
    tree: TreeRecord<'_>,
    period: Period,
    level: u64,
    offset: u64,
    class: u64,
) -> Result<Reason, Refusal>
    ensures { let place : Place = record { level = level; offset = offset } in
        outcome_of reason_told result ≡ reason_outcome period.0 place class (tree_of_rows tree.entry.rows.now) }
{
    if period.is_out_of_range() {
        return Err(Refusal::PeriodOutOfRange);
    }
    let Some(node) = node_at(tree, level, offset) else {
        return Err(Refusal::NoNode);
    };
    reason_at(tree, node, period, class)
}
