// A test of weaving, against the output of `second weave-answers`: a script of steps is read from standard input, one plan
// after another is woven with others, and each answer is printed. second/src/weave_script.rs says the formats.
// That something cannot be printed is not reported: what is printed is compared.
#![tactic(auto)]

use plan::record::PlanRecord;
use plan::weave::weave;
use std::io::Read;
use test_script::{Step, run_plan_step, run_script};
use tree::Plan;
use tree::refusal::Refusal;

// The bytes of the other record, two of each number.
const RECORD_BYTES: usize = 2816;

// The rows of a line up to the last one that is not 0 and 0, if there is one: of a row that is not used none is printed.
fn print_line(rt: &impl Print, line: usize, numbers: &[u16]) {
    let mut used = 0;
    for (place, number) in numbers.iter().enumerate() {
        if *number != 0 {
            used = place - place % 2 + 2;
        }
    }
    if used == 0 {
        return;
    }
    let _ = print!(rt; "rows {line}");
    for number in numbers.iter().take(used) {
        let _ = print!(rt; " {number}");
    }
    let _ = println!(rt);
}

fn print_record(rt: &impl Print, plan: &Plan) {
    let (lines, _) = plan.rows.as_chunks::<22>();
    for (line, numbers) in lines.iter().enumerate() {
        print_line(rt, line, numbers);
    }
}

fn number_of(answer: &Result<Plan, Refusal>) -> u8 {
    match answer {
        Ok(_) => 0,
        Err(refusal) => u8::from(*refusal),
    }
}

// Another form of the call, and whether it answers the numbers that the call with two plans did.
fn print_form<A: PlanRecord, B: PlanRecord>(
    rt: &impl Print,
    form: &str,
    a: &A,
    b: &B,
    of_plans: &Result<Plan, Refusal>,
) {
    let woven = weave(a, b);
    let same = match (&woven, of_plans) {
        (Ok(plan), Ok(of_plans)) if plan.rows == of_plans.rows => "equal",
        (Err(_), Err(_)) => "-",
        _ => "unequal",
    };
    let _ = println!(rt; "{form} {} {same}", number_of(&woven));
}

// Each form of the call, and the woven record. The woven plan, or the one that was there before.
fn run_weave(rt: &impl Print, side: u64, plan: Plan, other: Plan) -> Plan {
    let (a, b) = if side % 2 == 0 {
        (plan, other)
    } else {
        (other, plan)
    };
    let woven = weave(&a, &b);
    let _ = println!(rt; "weave {side} {}", number_of(&woven));
    print_form(rt, "lent", &a.rows, &b.rows, &woven);
    print_form(rt, "lent-a", &a.rows, &b, &woven);
    print_form(rt, "lent-b", &a, &b.rows, &woven);
    match woven {
        Ok(woven) => {
            print_record(rt, &woven);
            woven
        }
        Err(_) => plan,
    }
}

// The plan of the other record, which follows in the script. None where it is not there.
fn read_other(script: &mut impl Read) -> Option<Plan> {
    let mut bytes = [0; RECORD_BYTES];
    script.read_exact(&mut bytes).ok()?;
    let (pairs, _) = bytes.as_chunks::<2>();
    let mut rows = [0; 1408];
    for (number, pair) in rows.iter_mut().zip(pairs) {
        *number = u16::from_be_bytes(*pair);
    }
    Some(Plan { rows })
}

// One step: one that the programs share, or a weave.
fn run_step(rt: &impl Print, script: &mut impl Read, plan: Plan, step: Step) -> Option<Plan> {
    if step.kind <= 5 {
        return Some(run_plan_step(rt, plan, step));
    }
    let other = read_other(script)?;
    Some(run_weave(rt, step.numbers[0], plan, other))
}

fn main(rt: HostRuntime) {
    run_script(&mut rt.stdin(), |script, plan, step| {
        run_step(&rt, script, plan, step)
    });
}
