// How many nodes the path of each line has in common with one path. By these numbers the lines through one of its nodes are
// found again at every level, without a look at their paths.
ghost use Rattle.std.specs.Prelude.{ℕ, ◌≡◌, ◌<◌, ◌≤◌, take, get_or};
ghost use Rattle.tree.specs.Search.{each_below};
ghost use Rattle.tree.specs.Record.{path_at};
ghost use Rattle.joining.specs.Common.{nodes_in_common};

use candidates::open_lines::lines_end;
use tree::Row;
use tree::line::Line;

// The number of nodes that the first `count` rows of a path and the path of another line have in common.
fn nodes_in_common(rows: &[u16; 1408], path: &[Row; 11], count: usize, other: Line) -> u8
    requires { count ≤ 11 }
    ensures { result ≡ nodes_in_common (take count path.now) (path_at rows.now other.number) }
{
    for k in 0..count {
        let row = paths::row(rows, other, k);
        if row.weight == 0 {
            return k as u8;
        }
        if row.edge != path[k].edge {
            return k as u8 + 1;
        }
    }
    count as u8
}

// The number of nodes in common of each line. Closed lines have none, so that those from the end of the open ones on are not
// looked at.
pub(crate) fn common_of_lines(rows: &[u16; 1408], path: &[Row; 11], count: usize) -> [u8; 64]
    requires { count ≤ 11 }
    ensures { result ≡ each_below 64 (λ M. nodes_in_common (take count path.now) (path_at rows.now M)) }
{
    let mut common = [0; 64];
    let end = lines_end(rows);
    for number in 0..end {
        common[number] = nodes_in_common(rows, path, count, Line { number });
    }
    common
}

// The largest of these numbers: on the levels from it on, no line goes through the node of the path.
pub(crate) fn deepest(common: &[u8; 64]) -> usize
    ensures none_larger { (M : ℕ) → M < 64 → get_or common.now M 0 ≤ result }
    ensures one_of_them { (M : ℕ) × (M < 64) × (get_or common.now M 0 ≡ result) }
{
    let mut most = 0;
    for number in 0..64 {
        most = most.max(common[number] as usize);
    }
    most
}
