// The walker: the owners of successive rounds, one for each call, and the rest of each that is idle.
ghost use Rattle.bridge.specs.Rows.{tree_of_rows};
ghost use Rattle.plan.specs.Walker.{WalkedOn};

use crate::ask::{self, OwnerAnswer};
use crate::record::PlanRecord;
use tree::refusal::Refusal;

// The caller's own record: the next round, and how many of the rounds seen were owned.
#[derive(Clone, Copy, Debug, PartialEq, Eq)]
pub struct WalkerPlace {
    pub next: u64,
    pub owned: u64,
}

// What a walker call gives: the owner of the next round or its rest, or a refusal; and the place after it.
#[derive(Clone, Copy)]
pub struct Walked {
    pub answer: Result<OwnerAnswer, Refusal>,
    pub place: WalkerPlace,
}

// The owner of the next round, and the place moved on. Refused with 9, and the place as found, where either number is
// 2^64 - 1.
pub fn walk<P: PlanRecord>(plan: &P, place: WalkerPlace) -> Walked
    ensures { WalkedOn place (tree_of_rows (P.numbers plan.now)) result.answer result.place }
{
    let refused = Walked {
        answer: Err(Refusal::WalkerAtEnd),
        place,
    };
    let Some(next) = place.next.checked_add(1) else {
        return refused;
    };
    let Some(one_more) = place.owned.checked_add(1) else {
        return refused;
    };
    let answer = ask::owner(plan, place.next);
    let owned = match answer {
        OwnerAnswer::Line(_) => one_more,
        OwnerAnswer::Idle(_) => place.owned,
    };
    Walked {
        answer: Ok(answer),
        place: WalkerPlace { next, owned },
    }
}

// The same on a place that is lent, in the thin function that document 01 names.
pub fn walk_lent<P: PlanRecord>(plan: &P, place: &mut WalkerPlace) -> Result<OwnerAnswer, Refusal>
    ensures { WalkedOn place.old (tree_of_rows (P.numbers plan.now)) result place.new }
{
    let walked = walk(plan, *place);
    *place = walked.place;
    walked.answer
}
