// The beamtime sheet. A record that is no tree is answered as the empty plan, in which every round is idle.
ghost use Rattle.std.specs.Prelude.{◌≡◌};
ghost use Rattle.tree.specs.Sheet.{sheet};
ghost use Rattle.bridge.specs.Rows.{tree_of_rows};

use crate::record::PlanRecord;
use paths::tree_record::tree_record;
use tree::Sheet;

// The sheet of so many rounds that begin with `first`: the turns of each line, 0 for a closed one, and the idle rounds. It
// never refuses. The rounds are whole numbers and may pass 2^64.
pub fn sheet<P: PlanRecord>(plan: &P, first: u64, rounds: u16) -> Sheet
    ensures { result ≡ sheet first rounds (tree_of_rows (P.numbers plan.now)) }
{
    let Some(tree) = tree_record(plan.rows()) else {
        return Sheet {
            turns: [0; 64],
            idle: rounds,
        };
    };
    asking::sheet::sheet_of(tree, first, rounds)
}
