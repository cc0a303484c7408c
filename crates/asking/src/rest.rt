// How long the recorder rests: the rounds from an idle one to the next turn of any open line.
ghost use Rattle.std.specs.Prelude.{◌≡◌};
ghost use Rattle.tree.specs.Asking.{rest};
ghost use Rattle.tree.specs.Record.{path_at};
ghost use Rattle.bridge.specs.Rows.{tree_of_rows};
ghost use Rattle.asking.specs.Turns.{nearer_turn};

use crate::times_of;
use paths::record::TreeRecord;
use tree::line::Line;

// The fewest rounds to a turn, of the lines so far and of this one; nothing where none of them has a turn. A closed line has
// no turn.
fn nearer_turn(tree: TreeRecord<'_>, line: Line, round: u64, least: Option<u16>) -> Option<u16>
    ensures { result ≡ nearer_turn (path_at tree.entry.rows.now line.number) round least }
{
    if paths::is_closed(tree.rows, line) {
        return least;
    }
    let until = times_of(tree, line).until_turn(round);
    Some(least.map_or(until, |rounds| until.min(rounds)))
}

// The rest of a round, 0 in the empty plan.
pub fn rest_of(tree: TreeRecord<'_>, round: u64) -> u16
    ensures { result ≡ rest round (tree_of_rows tree.entry.rows.now) }
{
    let mut least = None;
    for number in 0..64 {
        least = nearer_turn(tree, Line { number }, round, least);
    }
    least.unwrap_or(0)
}
