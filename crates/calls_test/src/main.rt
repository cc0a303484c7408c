// A test of the calls of crate plan, against the output of `second answers`: a script of calls is read from standard
// input, put to one plan after another, and each answer is printed. second/src/script.rs says the formats.
// That something cannot be printed is not reported: what is printed is compared.
#![tactic(auto)]

ghost use Rattle.tree.specs.Record.{tree_of};
ghost use Rattle.plan.specs.Walker.{WalkedOn};

use plan::walker::{Walked, WalkerPlace};
use reasons::Reason;
use test_script::{Step, period_of, print_owner, run_plan_step, run_script};
use tree::Plan;

fn run_turns(rt: &impl Print, plan: &Plan, line: u64, first: u64, rounds: u32) {
    let _ = match plan::ask::turns(plan, line, first, rounds) {
        Ok(count) => println!(rt; "turns {line} {first} {rounds} 0 {count}"),
        Err(refusal) => println!(rt; "turns {line} {first} {rounds} {} -", u8::from(refusal)),
    };
}

// The turns of the lines 0 to 63, and the idle rounds.
fn run_sheet(rt: &impl Print, plan: &Plan, first: u64, rounds: u16) {
    let sheet = plan::sheet::sheet(plan, first, rounds);
    let _ = print!(rt; "sheet {first} {rounds}");
    for turns in sheet.turns {
        let _ = print!(rt; " {turns}");
    }
    let _ = println!(rt; " {}", sheet.idle);
}

// The start, the number of nodes added, and whether a node is split.
fn run_trial(rt: &impl Print, plan: &Plan, line: u64, period: u64) {
    let _ = match plan::trial::trial(plan, line, period_of(period)) {
        Ok(trial) => {
            let split = if trial.split { "split" } else { "whole" };
            println!(rt;
                "trial {line} {period} 0 {} {} {split}",
                trial.start.0, trial.added
            )
        }
        Err(refusal) => println!(rt; "trial {line} {period} {} - - -", u8::from(refusal)),
    };
}

// The line that stands in the class, or that the step does not divide the period.
fn run_reason(rt: &impl Print, plan: &Plan, period: u64, level: u64, offset: u64, class: u64) {
    let _ = print!(rt; "reason {period} {level} {offset} {class} ");
    let _ = match plan::reason::reason(plan, period_of(period), level, offset, class) {
        Ok(Reason::Line(line)) => println!(rt; "0 line {line}"),
        Ok(Reason::StepDoesNotDivide) => println!(rt; "0 step"),
        Err(refusal) => println!(rt; "{} -", u8::from(refusal)),
    };
}

// The form of the walker, the place before the call, the answer, and the place after it.
fn print_walk(rt: &impl Print, form: &str, before: WalkerPlace, walked: Walked) {
    let _ = print!(rt; "{form} {} {} ", before.next, before.owned);
    match walked.answer {
        Ok(owner) => print_owner(rt, owner),
        Err(refusal) => {
            let _ = print!(rt; "refused {}", u8::from(refusal));
        }
    }
    let after = walked.place;
    let _ = println!(rt; " {} {}", after.next, after.owned);
}

// The walker on a place that is lent.
#[tactic(auto, unfolding(bridge::specs::Rows::tree_of_rows))]
fn lend(plan: &Plan, mut place: WalkerPlace) -> Walked
    ensures { WalkedOn place (tree_of plan.now) result.answer result.place }
{
    let answer = plan::walker::walk_lent(plan, &mut place);
    Walked { answer, place }
}

// The walker by value, then on a lent place.
fn run_walk(rt: &impl Print, plan: &Plan, place: WalkerPlace) {
    print_walk(rt, "walk", place, plan::walker::walk(plan, place));
    print_walk(rt, "lent", place, lend(plan, place));
}

// One step: one that the programs share, or a call that asks.
fn run_step(rt: &impl Print, plan: Plan, step: Step) -> Plan {
    let [first, second, third, fourth] = step.numbers;
    match step.kind {
        0..=5 => return run_plan_step(rt, plan, step),
        6 => run_turns(rt, &plan, first, second, (third % (1 << 32)) as u32),
        8 => run_trial(rt, &plan, first, second),
        9 => run_sheet(rt, &plan, first, (second % (1 << 16)) as u16),
        10 => run_reason(rt, &plan, first, second, third, fourth),
        _ => {
            let place = WalkerPlace {
                next: first,
                owned: second,
            };
            run_walk(rt, &plan, place);
        }
    }
    plan
}

fn main(rt: HostRuntime) {
    run_script(&mut rt.stdin(), |_, plan, step| {
        Some(run_step(&rt, plan, step))
    });
}
