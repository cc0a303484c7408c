// The nodes on a path are joined, level by level from the deepest one up to the root.
#![tactic(auto)]

ghost use Rattle.std.specs.Prelude.{◌≡◌, ◌<◌, ◌≤◌, true, suc, List, take};
ghost use Rattle.tree.specs.declared.Row.{Row};
ghost use Rattle.tree.specs.Closing.{joined_up};
ghost use Rattle.tree.specs.Record.{legal};
ghost use Rattle.bridge.specs.Rows.{tree_of_rows, LegalWith};
ghost use Rattle.joining.specs.Levels.{CommonWith, LevelJoined};

use crate::common::{common_of_lines, deepest};
use crate::{join_node, weight_below};
use tree::Row;

// The node at a level is joined while it can be. Each join leaves one node less of the at most 11 above a line, so that 10 are
// enough.
fn join_level(rows: &mut [u16; 1408], common: &[u8; 64], level: usize)
    requires level { level < 10 }
    requires common { (ps : List Row) × CommonWith rows.old ps common.now (suc level) }
    ensures { (ps : List Row) → CommonWith rows.old ps common.now (suc level) → LevelJoined rows.old rows.new ps common.now level }
{
    for _ in 0..10usize {
        let Some(_) = weight_below(rows, common, level) else {
            return;
        };
        join_node(rows, common, level);
    }
}

// The nodes on the first `count` rows of a path are joined, from the deepest one on that a line goes through. Under the node at level 10
// there are lines alone.
pub fn join_up(rows: &mut [u16; 1408], path: &[Row; 11], count: usize)
    requires count { count ≤ 11 }
    requires tree { legal rows.old ≡ true }
    ensures { LegalWith rows.new (joined_up (take count path.now) (tree_of_rows rows.old)) }
{
    let common = common_of_lines(rows, path, count);
    for level in (0..deepest(&common).min(10)).rev() {
        join_level(rows, &common, level);
    }
}
