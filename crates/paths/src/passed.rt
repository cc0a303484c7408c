// The lines that the check of a record has passed, and whether an open line goes together with them.
// A line's bucket is the edge that it takes at the root, modulo 128. Two lines that take different edges of one root part
// there, so that a line is compared only with those of its own bucket.
ghost use Rattle.std.specs.Prelude.{◌≡◌, true, false, ◌+◌, ◌<◌};
ghost use Rattle.tree.specs.Record.{path_at, no_rows};
ghost use Rattle.paths.specs.Answers.{joins_earlier};
ghost use Rattle.paths.specs.Chains.{Chained};
ghost use Rattle.paths.specs.Passed.{root_bucket, parts_from_bucket, PassedBelow};

use crate::chains::Chains;
use crate::{edge, parts, weight};
use tree::line::Line;

// The weight of the root, 0 while no open line was passed, and the open lines in chains by their buckets.
#[derive(Clone, Copy)]
pub struct Passed {
    pub root: u16,
    pub chains: Chains,
}

// A line parts from each earlier one of a bucket.
fn parts_from_bucket(rows: &[u16; 1408], chains: &Chains, line: Line, bucket: usize) -> bool
    requires bucket { bucket < 128 }
    requires chained { Chained (root_bucket rows.now) chains.now line.number }
    ensures { result ≡ parts_from_bucket rows.now bucket line.number }
{
    let mut entry = chains.first(bucket);
    while entry != 0 {
        let other = Line { number: entry - 1 };
        if !parts(rows, other, line) {
            return false;
        }
        entry = chains.next(other);
    }
    true
}

// An open line goes together with the lines passed; then it is one of them.
pub(crate) fn joins_passed(rows: &[u16; 1408], line: Line, passed: &mut Passed) -> bool
    requires open { no_rows (path_at rows.now line.number) ≡ false }
    requires passed { PassedBelow rows.now line.number passed.old }
    ensures answer { result ≡ joins_earlier rows.now line.number }
    ensures passed { result ≡ true → PassedBelow rows.now (line.number + 1) passed.new }
{
    let root = weight(rows, line, 0);
    if passed.root != 0 && passed.root != root {
        return false;
    }
    let bucket = edge(rows, line, 0) as usize % 128;
    if !parts_from_bucket(rows, &passed.chains, line, bucket) {
        return false;
    }
    passed.root = root;
    passed.chains.enter(bucket, line);
    true
}
