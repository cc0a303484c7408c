// What the test programs share: the steps of a script, the loop over them, and the steps that two programs have.
// It is for tests and promises only that it is safe and ends. That something cannot be printed is not reported: what is
// printed is compared.
#![tactic(auto)]

use plan::ask::{OwnerAnswer, Shown};
use std::io::Read;
use tree::{Period, Plan, Row};

// More steps than a script has are not read.
const MOST_STEPS: usize = 1000000;

// A step of a script, which is 33 bytes: a kind, then four numbers, the most significant byte first.
#[derive(Clone, Copy)]
pub struct Step {
    pub kind: u8,
    pub numbers: [u64; 4],
}

impl From<[u8; 33]> for Step {
    fn from(bytes: [u8; 33]) -> Step {
        let (numbers, _) = bytes[1..].as_chunks::<8>();
        Step {
            kind: bytes[0],
            numbers: [
                u64::from_be_bytes(numbers[0]),
                u64::from_be_bytes(numbers[1]),
                u64::from_be_bytes(numbers[2]),
                u64::from_be_bytes(numbers[3]),
            ],
        }
    }
}

// The next step, or none at the end of the script.
fn next_step(script: &mut impl Read) -> Option<Step> {
    let mut bytes = [0; 33];
    script.read_exact(&mut bytes).ok()?;
    Some(Step::from(bytes))
}

// Runs the steps of a script in turn, the first on the empty plan. A step may read on in the script; it gives the plan after
// it, or none where the script ends within it.
pub fn run_script<R: Read, F: FnMut(&mut R, Plan, Step) -> Option<Plan>>(
    script: &mut R,
    mut run_step: F,
)
    requires { F.IsAlwaysCallable run_step }
{
    let mut plan = plan::change::empty();
    for _ in 0..MOST_STEPS {
        let Some(step) = next_step(script) else {
            return;
        };
        let Some(after) = run_step(script, plan, step) else {
            return;
        };
        plan = after;
    }
}

// The empty plan again.
pub fn begin(rt: &impl Print) -> Plan {
    let _ = println!(rt; "plan");
    plan::change::empty()
}

// A number of the record, written over.
pub fn write_number(rt: &impl Print, mut plan: Plan, place: u64, number: u64) -> Plan {
    let _ = println!(rt; "write {place} {number}");
    if let Some(found) = plan.rows.get_mut(place as usize)
        && let Ok(number) = u16::try_from(number)
    {
        *found = number;
    }
    plan
}

// The owner of a round, or that it is idle, and its rest.
pub fn print_owner(rt: &impl Print, owner: OwnerAnswer) {
    let _ = match owner {
        OwnerAnswer::Line(line) => print!(rt; "{line}"),
        OwnerAnswer::Idle(rest) => print!(rt; "idle {rest}"),
    };
}

pub fn run_owner(rt: &impl Print, plan: &Plan, round: u64) {
    let _ = print!(rt; "owner {round} ");
    print_owner(rt, plan::ask::owner(plan, round));
    let _ = println!(rt);
}

// A number too large for a period is out of range, and stays so. Not `tree::period_asked`: a period of 16 bits is put as it is.
pub fn period_of(asked: u64) -> Period {
    Period(u16::try_from(asked).unwrap_or(u16::MAX))
}

fn run_open(rt: &impl Print, plan: Plan, line: u64, period: u64) -> Plan {
    let opened = plan::change::open(plan, line, period_of(period));
    let _ = match opened.answer {
        Ok(start) => println!(rt; "open {line} {period} 0 {}", start.0),
        Err(refusal) => println!(rt; "open {line} {period} {} -", u8::from(refusal)),
    };
    opened.plan
}

fn run_close(rt: &impl Print, plan: Plan, line: u64) -> Plan {
    let closed = plan::change::close(plan, line);
    let _ = match closed.answer {
        Ok(()) => println!(rt; "close {line} 0"),
        Err(refusal) => println!(rt; "close {line} {}", u8::from(refusal)),
    };
    closed.plan
}

fn print_shown(rt: &impl Print, line: u64, shown: Shown) {
    let _ = print!(rt; "show {line} 0 {} {}", shown.period.0, shown.start.0);
    for Row { weight, edge } in shown.rows {
        let _ = print!(rt; " {weight} {edge}");
    }
    let _ = println!(rt);
}

fn run_show(rt: &impl Print, plan: &Plan, line: u64) {
    match plan::ask::show(plan, line) {
        Ok(shown) => print_shown(rt, line, shown),
        Err(refusal) => {
            let _ = println!(rt; "show {line} {}", u8::from(refusal));
        }
    }
}

// The steps that three of the programs have, by the kinds 0 to 5: a call that changes the plan, the empty plan again, a number
// written over, or a question. The kind is matched as the script's number, here and in the programs: so each stands once, beside
// what it runs, where an enum would name it three times.
pub fn run_plan_step(rt: &impl Print, plan: Plan, step: Step) -> Plan {
    let [first, second, _, _] = step.numbers;
    match step.kind {
        0 => return run_open(rt, plan, first, second),
        1 => return run_close(rt, plan, first),
        2 => return begin(rt),
        3 => return write_number(rt, plan, first, second),
        4 => run_owner(rt, &plan, first),
        _ => run_show(rt, &plan, first),
    }
    plan
}
