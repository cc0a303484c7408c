// The call that weaves two plans.
ghost use Rattle.std.specs.Prelude.{◌≡◌};
ghost use Rattle.gaplinte.specs.WeavingServed.{WeaveServed};

use crate::answers;
use tree::Plan;

fn numbers(plan: Plan) -> [u16; 1408]
    ensures { result ≡ plan.rows }
{
    plan.rows
}

// Weaves two plans into the third record that is lent, which then has the woven tree: the lines of `a` get the even rounds, those
// of `b` the odd ones.
pub fn gaplinte_weave(a: &[u16; 1408], b: &[u16; 1408], woven: &mut [u16; 1408]) -> i64
    ensures { WeaveServed a.now b.now woven.old woven.new result }
{
    let given = plan::weave::weave(a, b);
    answers::write(woven, given.map(numbers))
}
