// What an open would do, told from the lent record of a tree. The nodes are counted and not built, and nothing is written.
#![tactic(auto)]

ghost use Rattle.std.specs.Prelude.{◌≡◌, ◌<◌};
ghost use Rattle.tree.specs.Answered.{outcome_of};
ghost use Rattle.tree.specs.Record.{path_at};
ghost use Rattle.tree.specs.Trial.{trial_outcome};
ghost use Rattle.paths.specs.Rules.{classes_taken, own_nodes, trial_at};
ghost use Rattle.candidates.specs.Answers.{spot_in};
ghost use Rattle.bridge.specs.Rows.{tree_of_rows};
ghost use Rattle.trials.specs.Answers.{trial_told};
ghost use Rattle.trials.specs.Tryable.{Tryable};

use candidates::edges;
use candidates::spot::Spot;
use paths::record::TreeRecord;
use paths::{edge, same_node, weight};
use tree::line::Line;
use tree::refusal::Refusal;
use tree::{Period, Start};

// The figures of an open that is not refused: its start, how many nodes it would add, and if it would split one.
#[derive(Clone, Copy, Debug, PartialEq, Eq)]
pub struct Trial {
    pub start: Start,
    pub added: u16,
    pub split: bool,
}

// How many of the classes modulo a candidate's divisor are taken by lines, at its node. A class counts when the first line
// that takes it is met.
fn classes_taken(rows: &[u16; 1408], spot: Spot) -> u16
    requires level { spot.node.level < 11 }
    requires divisor { (0 < spot.divisor) × (spot.divisor < 4096) }
    ensures { result ≡ classes_taken (path_at rows.now) (path_at rows.now spot.node.line.number) spot.node.level spot.divisor }
{
    let node = spot.node;
    let mut met = [0; 64];
    let mut count: u16 = 0;
    for number in 0..64 {
        let other = Line { number };
        if !same_node(rows, node.line, other, node.level) {
            continue;
        }
        let class = (edge(rows, other, node.level) % spot.divisor) as usize;
        if edges::is_marked(&met, class) {
            continue;
        }
        edges::mark(&mut met, class);
        count += 1;
    }
    count
}

// The nodes of weight q that the line gets for itself: one, unless q is 1.
fn own_nodes(q: u16) -> u16
    ensures { result ≡ own_nodes q }
{
    u16::from(q != 1)
}

// The figures of a booking at the chosen candidate. A split adds a node for each class that lines take.
fn trial_at(tree: TreeRecord<'_>, period: Period, spot: Spot) -> Trial
    requires { Tryable tree.rows.now (spot_in spot) }
    ensures { trial_told result ≡ trial_at (path_at tree.entry.rows.now) period.0 (spot_in spot) }
{
    let node = spot.node;
    let start = spot.start();
    let own = own_nodes(period.0 / (node.step * spot.divisor));
    let split = spot.divisor < weight(tree.rows, node.line, node.level);
    if !split {
        return Trial {
            start,
            added: own,
            split,
        };
    }
    Trial {
        start,
        added: classes_taken(tree.rows, spot) + own,
        split,
    }
}

// A trial: the open's refusal; or the figures of a first line, which gets the root; or those of a booking at the chosen
// candidate.
pub fn trial_line(tree: TreeRecord<'_>, line: u64, period: Period) -> Result<Trial, Refusal>
    ensures { outcome_of trial_told result ≡ trial_outcome line period.0 (tree_of_rows tree.entry.rows.now) }
{
    let room = lines::check::check_open(tree, line, period)?;
    let Some(spot) = room.spot else {
        return Ok(Trial {
            start: Start(0),
            added: 1,
            split: false,
        });
    };
    Ok(trial_at(tree, period, spot))
}
