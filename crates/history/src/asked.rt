// A 5 and its reasons, by the calls themselves: an open, and before it the call for the reason, put to each class of each node.
ghost use Rattle.std.specs.Prelude.{◌≡◌};
ghost use Rattle.tree.specs.Record.{tree_of};
ghost use Rattle.lines.specs.Answers.{open_answer};
ghost use Rattle.history.specs.Asked.{none_refused_at_node, none_refused_at_level, none_refused, OpenExplained};

use reasons::Reason;
use tree::refusal::Refusal;
use tree::{Period, Plan, Start};

// What an open answered, and whether each class of each node had a reason before it.
#[derive(Clone, Copy)]
pub struct Explained {
    pub answer: Result<Start, Refusal>,
    pub each_has_reason: bool,
}

// Each class of the node at a level and an offset has a reason: none is refused with 12.
// An answer that is neither a line nor that refusal tells that there is no class more to ask for.
fn node_explained(plan: &Plan, period: Period, level: u64, offset: u64) -> bool
    ensures { result ≡ none_refused_at_node period.0 level offset (tree_of plan.now) }
{
    for class in 0..4095 {
        match plan::reason::reason(plan, period, level, offset, class) {
            Ok(Reason::Line(_)) => {}
            Ok(Reason::StepDoesNotDivide) => return true,
            Err(refusal) => return refusal != Refusal::NoLineInClass,
        }
    }
    true
}

// The same of each node of a level.
fn level_explained(plan: &Plan, period: Period, level: u64) -> bool
    ensures { result ≡ none_refused_at_level period.0 level (tree_of plan.now) }
{
    for offset in 0..4095 {
        if !node_explained(plan, period, level, offset) {
            return false;
        }
    }
    true
}

// The same of each node of the plan. A period out of range is refused with 2 everywhere, and so nowhere with 12.
pub fn each_has_reason(plan: &Plan, period: Period) -> bool
    ensures { result ≡ none_refused period.0 (tree_of plan.now) }
{
    for level in 0..11 {
        if !level_explained(plan, period, level) {
            return false;
        }
    }
    true
}

// An open, and before it the question whether each class of each node has a reason.
// It is there for its contract, which states of the real calls what `explained_by_calls` states of their contracts.
pub fn open_explained(plan: Plan, line: u64, period: Period) -> Explained
    ensures { OpenExplained line period.0 plan (open_answer result.answer) result.each_has_reason }
{
    let each_has_reason = each_has_reason(&plan, period);
    let opened = plan::change::open(plan, line, period);
    Explained {
        answer: opened.answer,
        each_has_reason,
    }
}
