// Demand 3 over the program's own calls: a list of calls is run on the real open and close, and the whole claim is what the function ensures.
#![tactic(auto)]

ghost use Rattle.std.specs.Prelude.{◌≡◌};
ghost use Rattle.lists.specs.Runs.{answer_in};
ghost use Rattle.plan.specs.Meets.{Meets};
ghost use Rattle.history.specs.FromImage.{ReplaysImage};
ghost use Rattle.history.specs.FromWoven.{ReplaysWoven};
ghost use Rattle.history.specs.Replay.{call_of, answer_number, ReplaysFrom, Replays, ReplaysAndOwns, ReplaysAndAddsUp};

pub mod asked;

use plan::ask::OwnerAnswer;
use tree::changed::Changed;
use tree::refusal::Refusal;
use tree::{Plan, Sheet, Start};

// How many calls were run, and the plan that the last of them left.
#[derive(Clone, Copy)]
pub struct Replayed {
    pub count: usize,
    pub plan: Plan,
}

// One call of the list. An open answers with the line's start, a close with none.
fn run_call(
    plan: Plan,
    kind: u64,
    line: u64,
    period: u64,
) -> Changed<Result<Option<Start>, Refusal>>
    ensures { Meets (call_of kind line period) plan (answer_in result.answer) result.plan }
{
    if kind == 0 {
        let opened = plan::change::open(plan, line, tree::period_asked(period));
        return Changed {
            answer: opened.answer.map(Some),
            plan: opened.plan,
        };
    }
    let closed = plan::change::close(plan, line);
    Changed {
        answer: closed.answer.and(Ok(None)),
        plan: closed.plan,
    }
}

// A call's answer as a number.
fn number(answer: Result<Option<Start>, Refusal>) -> u64
    ensures { result ≡ answer_number (answer_in answer) }
{
    match answer {
        Ok(Some(start)) => u64::from(start.0),
        Ok(None) => 65536,
        Err(refusal) => 131072 + u64::from(u8::from(refusal)),
    }
}

// Runs the calls of the lent list on a plan, as far as they are whole and the lent buffer has room, and writes one number for each answer.
// A call is three numbers and not a type of its own, since every kind but 0 is a close: a type would ask more of callers.
// Calls and answers go by index, since of a slice that `iter_mut` lent no proof knows what it holds afterwards.
pub fn replay_from(first: Plan, calls: &[u64], answers: &mut [u64]) -> Replayed
    ensures { ReplaysFrom first calls.now answers.old answers.new result.count result.plan }
{
    let count = (calls.len() / 3).min(answers.len());
    let mut plan = first;
    for i in 0..count {
        let at = 3 * i;
        let changed = run_call(plan, calls[at], calls[at + 1], calls[at + 2]);
        answers[i] = number(changed.answer);
        plan = changed.plan;
    }
    Replayed { count, plan }
}

// Runs them from an empty plan.
pub fn replay(calls: &[u64], answers: &mut [u64]) -> Replayed
    ensures { Replays calls.now answers.old answers.new result.count result.plan }
{
    replay_from(plan::change::empty(), calls, answers)
}

// Reads an image, and runs the calls on the plan that it gives. Refused as reading is, and then nothing is run or written.
pub fn replay_image(image: &[u8], calls: &[u64], answers: &mut [u64]) -> Result<Replayed, Refusal>
    ensures { ReplaysImage image.now calls.now answers.old answers.new result }
{
    let read = plan::image::read_image(plan::change::empty(), image);
    read.answer?;
    Ok(replay_from(read.plan, calls, answers))
}

// Weaves two plans, and runs the calls on the woven plan. Refused as weaving is, and then nothing is run or written.
pub fn replay_woven(
    a: &Plan,
    b: &Plan,
    calls: &[u64],
    answers: &mut [u64],
) -> Result<Replayed, Refusal>
    ensures { ReplaysWoven a.now b.now calls.now answers.old answers.new result }
{
    let first = plan::weave::weave(a, b)?;
    Ok(replay_from(first, calls, answers))
}

// The owner of a round, or its rest, in the plan that the lent list leaves.
// It is there for its contract, which states of the real calls what `owner_of_calls` and `rest_of_calls` state of their contracts.
pub fn replay_owner(calls: &[u64], answers: &mut [u64], round: u64) -> OwnerAnswer
    ensures { ReplaysAndOwns calls.now answers.old answers.new round result }
{
    let replayed = replay(calls, answers);
    plan::ask::owner(&replayed.plan, round)
}

// The sheet of the plan that the lent list leaves. It is there for its contract, as `replay_owner` is: the sheet adds up.
pub fn replay_sheet(calls: &[u64], answers: &mut [u64], first: u64, rounds: u16) -> Sheet
    ensures { ReplaysAndAddsUp calls.now answers.old answers.new first rounds result }
{
    let replayed = replay(calls, answers);
    plan::sheet::sheet(&replayed.plan, first, rounds)
}
