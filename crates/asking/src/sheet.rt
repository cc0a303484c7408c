// The figures of a beamtime sheet: the turns of each line, and the idle rounds, which the walk counts round by round.
ghost use Rattle.std.specs.Prelude.{◌≡◌, not, ◌+◌};
ghost use Rattle.tree.specs.Search.{each_below};
ghost use Rattle.tree.specs.Asking.{owned};
ghost use Rattle.tree.specs.Sheet.{line_turns, idle_rounds, sheet};
ghost use Rattle.bridge.specs.Rows.{tree_of_rows};

use crate::round::Round;
use crate::{owner_of, times_of};
use paths::record::TreeRecord;
use tree::Sheet;
use tree::line::Line;

// The turns of a line among so many rounds that begin with `first`. A closed line has none.
fn line_turns(tree: TreeRecord<'_>, line: Line, first: u64, rounds: u16) -> u16
    ensures { result ≡ line_turns line.number first rounds (tree_of_rows tree.entry.rows.now) }
{
    if paths::is_closed(tree.rows, line) {
        return 0;
    }
    times_of(tree, line).turns(first, rounds as u32) as u16
}

// By a loop: `array::from_fn` would want a contract on its closure for a line below 64.
fn turns_of_lines(tree: TreeRecord<'_>, first: u64, rounds: u16) -> [u16; 64]
    ensures { result ≡ each_below 64 (λ L. line_turns L first rounds (tree_of_rows tree.entry.rows.now)) }
{
    let mut turns = [0; 64];
    for number in 0..64 {
        turns[number] = line_turns(tree, Line { number }, first, rounds);
    }
    turns
}

// A round is idle.
fn is_idle(tree: TreeRecord<'_>, round: Round) -> bool
    ensures { result ≡ not (owned (round.from + round.ahead) (tree_of_rows tree.entry.rows.now)) }
{
    owner_of(tree, round).is_none()
}

// The idle rounds among so many that begin with `first`, those past 2^64 included.
fn idle_rounds(tree: TreeRecord<'_>, first: u64, rounds: u16) -> u16
    ensures { result ≡ idle_rounds first rounds (tree_of_rows tree.entry.rows.now) }
{
    (0..rounds)
        .filter(|&ahead| is_idle(tree, Round { from: first, ahead }))
        .count() as u16
}

// The sheet of so many rounds that begin with `first`.
pub fn sheet_of(tree: TreeRecord<'_>, first: u64, rounds: u16) -> Sheet
    ensures { result ≡ sheet first rounds (tree_of_rows tree.entry.rows.now) }
{
    let turns = turns_of_lines(tree, first, rounds);
    let idle = idle_rounds(tree, first, rounds);
    Sheet { turns, idle }
}
