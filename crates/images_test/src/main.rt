// A test of the image calls, against the output of `second image-answers`: a script of steps is read from standard input,
// images of one plan after another are written, bytes are read as images, and each answer is printed.
// second/src/image_script.rs says the formats.
// That something cannot be printed is not reported: what is printed is compared.
#![tactic(auto)]

ghost use Rattle.std.specs.Prelude.{◌≤◌};

use plan::record::PlanRecord;
use std::io::Read;
use test_script::{Step, run_plan_step, run_script};
use tree::Plan;
use tree::refusal::Refusal;

// The most bytes that are lent, and that are read.
const MOST_BYTES: usize = 4096;

fn within(asked: u64) -> usize
    ensures { result ≤ 4096 }
{
    (asked as usize).min(MOST_BYTES)
}

fn print_bytes(rt: &impl Print, bytes: &[u8]) {
    for byte in bytes {
        let _ = print!(rt; "{byte:02x}");
    }
}

// The answer, and the whole buffer after the call.
fn print_written(rt: &impl Print, form: &str, answer: Result<usize, Refusal>, buffer: &[u8]) {
    let _ = print!(rt; "{form} {} ", buffer.len());
    let _ = match answer {
        Ok(length) => print!(rt; "0 {length} "),
        Err(refusal) => print!(rt; "{} - ", u8::from(refusal)),
    };
    if buffer.is_empty() {
        let _ = print!(rt; "-");
    }
    print_bytes(rt, buffer);
    let _ = println!(rt);
}

// The image, into so many bytes, each of which has this value before the call.
fn write_image<P: PlanRecord>(rt: &impl Print, form: &str, plan: &P, room: u64, byte: u8) {
    let mut space = [byte; MOST_BYTES];
    let buffer = &mut space[..within(room)];
    let answer = plan::image::write_image(plan, buffer);
    print_written(rt, form, answer, buffer);
}

// The writer on a plan by value, then on a lent record.
fn run_write(rt: &impl Print, plan: &Plan, room: u64, byte: u64) {
    let byte = (byte % 256) as u8;
    write_image(rt, "write-image", plan, room, byte);
    write_image(rt, "lent", &plan.rows, room, byte);
}

fn number_of(answer: Result<(), Refusal>) -> u8 {
    match answer {
        Ok(()) => 0,
        Err(refusal) => u8::from(refusal),
    }
}

// The reader on a plan by value, then on a lent record, and whether both leave the same numbers.
fn read_image(rt: &impl Print, plan: Plan, bytes: &[u8]) -> Plan {
    let mut rows = plan.rows;
    let read = plan::image::read_image(plan, bytes);
    let number = number_of(read.answer);
    let _ = println!(rt; "read-image {} {number}", bytes.len());
    let number = number_of(plan::image::read_image_rows(&mut rows, bytes));
    let numbers = if rows == read.plan.rows {
        "equal"
    } else {
        "unequal"
    };
    let _ = println!(rt; "lent {} {number} {numbers}", bytes.len());
    read.plan
}

// The reader on the bytes cut short at each of them, the shortest first, and never on the whole.
fn read_cut(rt: &impl Print, mut plan: Plan, bytes: &[u8]) -> Plan {
    for length in 0..bytes.len() {
        plan = read_image(rt, plan, &bytes[..length]);
    }
    plan
}

// Reads so many bytes, which follow in the script, whole or cut short. None where they are not there.
fn run_read(rt: &impl Print, script: &mut impl Read, plan: Plan, step: Step) -> Option<Plan> {
    let mut space = [0; MOST_BYTES];
    let bytes = &mut space[..within(step.numbers[0])];
    script.read_exact(bytes).ok()?;
    Some(match step.kind {
        12 => read_image(rt, plan, bytes),
        _ => read_cut(rt, plan, bytes),
    })
}

// One step: one that the programs share, or an image.
fn run_step(rt: &impl Print, script: &mut impl Read, plan: Plan, step: Step) -> Option<Plan> {
    let [first, second, _, _] = step.numbers;
    match step.kind {
        0..=5 => return Some(run_plan_step(rt, plan, step)),
        11 => run_write(rt, &plan, first, second),
        _ => return run_read(rt, script, plan, step),
    }
    Some(plan)
}

fn main(rt: HostRuntime) {
    run_script(&mut rt.stdin(), |script, plan, step| {
        run_step(&rt, script, plan, step)
    });
}
