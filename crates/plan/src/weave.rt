// Two plans woven (document 02, Ask 10). A record that is no tree is woven as the empty plan.
ghost use Rattle.std.specs.Prelude.{◌≡◌};
ghost use Rattle.bridge.specs.Rows.{tree_of_rows};
ghost use Rattle.tree.specs.Tree.{nothing};
ghost use Rattle.weaving.specs.Sides.{PlansWoven};

use crate::change::empty;
use crate::record::PlanRecord;
use paths::record::TreeRecord;
use paths::tree_record::tree_record;
use tree::Plan;
use tree::refusal::Refusal;

// The record where it is a tree, else the one of an empty plan that is lent for it.
fn tree_or<'a>(rows: &'a [u16; 1408], fresh: TreeRecord<'a>) -> TreeRecord<'a>
    requires { tree_of_rows fresh.rows.now ≡ nothing }
    ensures { tree_of_rows result.rows.now ≡ tree_of_rows rows.now }
{
    tree_record(rows).unwrap_or(fresh)
}

// Weaves two plans: the lines of `a` get the even rounds, with starts 2 * s, those of `b` the odd ones, with starts 2 * s + 1.
// Refused with 15 where a line is open in both, then with 16 where a doubled period is above 4,095: then no plan is given.
// Plans and records that are lent may be woven with each other.
pub fn weave<A: PlanRecord, B: PlanRecord>(a: &A, b: &B) -> Result<Plan, Refusal>
    ensures { PlansWoven (A.numbers a.now) (B.numbers b.now) result }
{
    let fresh = empty();
    let empty_tree = TreeRecord { rows: &fresh.rows };
    weaving::weave(tree_or(a.rows(), empty_tree), tree_or(b.rows(), empty_tree))
}
