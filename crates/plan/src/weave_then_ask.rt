// Two plans woven, and then a question put to the woven plan and to its sides. The functions are there for their contracts, which
// state of the calls, made one after the other, what Ask 10 claims of rounds and lines.
ghost use Rattle.plan.specs.WovenAsked.{OwnedAlike, ShownDoubled};

use crate::ask::{OwnerAnswer, Shown, owner, show};
use crate::record::PlanRecord;
use crate::weave::weave;
use tree::refusal::Refusal;

// The owner of a round of the woven plan, and that of the round which it is on its side.
#[derive(Clone, Copy)]
pub struct Owners {
    pub woven: OwnerAnswer,
    pub side: OwnerAnswer,
}

// Weaves two plans, and asks for the owner of a round, and of half that round on its side: both name the same line, or none. Refused
// as weaving is.
pub fn weave_then_owner<A: PlanRecord, B: PlanRecord>(
    a: &A,
    b: &B,
    round: u64,
) -> Result<Owners, Refusal>
    ensures { OwnedAlike (A.numbers a.now) (B.numbers b.now) round result }
{
    let plan = weave(a, b)?;
    let woven = owner(&plan, round);
    let side = if round % 2 == 0 {
        owner(a, round / 2)
    } else {
        owner(b, round / 2)
    };
    Ok(Owners { woven, side })
}

// What show answers of a line in the woven plan, and in the two plans.
#[derive(Clone, Copy)]
pub struct Shows {
    pub woven: Result<Shown, Refusal>,
    pub in_a: Result<Shown, Refusal>,
    pub in_b: Result<Shown, Refusal>,
}

// Weaves two plans, and shows a line: its period and its start are those that it had, doubled. Refused as weaving is.
pub fn weave_then_show<A: PlanRecord, B: PlanRecord>(
    a: &A,
    b: &B,
    line: u64,
) -> Result<Shows, Refusal>
    ensures { ShownDoubled (A.numbers a.now) (B.numbers b.now) line result }
{
    let plan = weave(a, b)?;
    Ok(Shows {
        woven: show(&plan, line),
        in_a: show(a, line),
        in_b: show(b, line),
    })
}
