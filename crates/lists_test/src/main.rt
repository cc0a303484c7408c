// A test of the list call, against the output of `second list-answers`: a script of steps is read from standard input,
// lists are run on one plan after another, and each answer is printed. second/src/list_script.rs says the formats.
// That something cannot be printed is not reported: what is printed is compared.
#![tactic(auto)]

ghost use Rattle.std.specs.Prelude.{◌≤◌};

use std::fmt;
use std::io::Read;
use test_script::{Step, begin, run_owner, run_script, write_number};
use tree::Plan;
use tree::refusal::Refusal;

// The bytes that lists are taken from.
const LIST_BYTES: usize = 100000;

// The most bytes that are lent for answers.
const MOST_ROOM: usize = 70000;

// Every lent byte before the call.
const UNTOUCHED: u8 = 0xee;

fn print_number(rt: &impl Print, plan: &Plan, place: u64) {
    let number = plan.rows.get(place as usize).copied().unwrap_or(0);
    let _ = println!(rt; "number {place} {number}");
}

// Some answers, two bytes each, as they are printed on one line.
#[derive(Clone, Copy)]
struct Answers<'a>(&'a [u8]);

impl fmt::Display for Answers<'_> {
    fn fmt<W: fmt::Write>(&self, f: &mut fmt::Formatter<W>) -> fmt::Result {
        let (answers, _) = self.0.as_chunks::<2>();
        let mut space = "";
        for answer in answers {
            write!(f, "{space}{:04x}", u16::from_be_bytes(*answer))?;
            space = " ";
        }
        Ok(())
    }
}

// The answers, 16 to a line.
fn print_answers(rt: &impl Print, answers: &[u8]) {
    for line in answers.chunks(32) {
        let _ = println!(rt; "{}", Answers(line));
    }
}

// How many of the bytes beyond the answers are as they were before the call, and the first of them, at most 6.
fn print_beyond(rt: &impl Print, beyond: &[u8]) {
    let untouched = beyond.iter().filter(|byte| **byte == UNTOUCHED).count();
    let _ = print!(rt; "beyond {untouched}");
    for byte in beyond.iter().take(6) {
        let _ = print!(rt; " {byte:02x}");
    }
    let _ = println!(rt);
}

// The answers of a list of so many bytes, and what is beyond them. Fewer lent bytes than answers were refused by the call.
fn print_list(rt: &impl Print, length: usize, lent: &[u8], answer: Result<(), Refusal>) {
    let (number, orders) = match answer {
        Ok(()) => (0, length / 3),
        Err(refusal) => (u8::from(refusal), 0),
    };
    let _ = println!(rt; "list {length} {} {number}", lent.len());
    if let Some((answers, beyond)) = lent.split_at_checked(2 * orders) {
        print_answers(rt, answers);
        print_beyond(rt, beyond);
    }
}

// A number of bytes of a buffer; one that is too large is the buffer's length.
fn within(asked: u64, most: usize) -> usize
    ensures { result ≤ most }
{
    (asked as usize).min(most)
}

// A list of so many bytes, with so many lent for its answers.
fn run_list(rt: &impl Print, plan: Plan, bytes: &[u8], length: u64, room: u64) -> Plan {
    let list = &bytes[..within(length, bytes.len())];
    let mut space = [UNTOUCHED; MOST_ROOM];
    let lent = &mut space[..within(room, MOST_ROOM)];
    let ran = lists::run_list(plan, list, lent);
    print_list(rt, list.len(), lent, ran.answer);
    ran.plan
}

// Reads so many bytes, and repeats them to the end of the buffer, of which the last piece may be shorter. None where they are
// not there.
fn give(script: &mut impl Read, bytes: &mut [u8], count: u64) -> Option<()> {
    let count = within(count, bytes.len());
    if count == 0 {
        return None;
    }
    let (given, rest) = bytes.split_at_mut(count);
    script.read_exact(given).ok()?;
    for piece in rest.chunks_mut(count) {
        let size = piece.len().min(count);
        piece[..size].copy_from_slice(&given[..size]);
    }
    Some(())
}

// One step: the empty plan again, a number written over, a question, bytes that are given, or a list of them.
// The kind is matched as the script's number: so each stands once, beside what it runs, where an enum would name it three times.
fn run_step(
    rt: &impl Print,
    script: &mut impl Read,
    bytes: &mut [u8],
    plan: Plan,
    step: Step,
) -> Option<Plan> {
    let [first, second, _, _] = step.numbers;
    match step.kind {
        0 => return Some(begin(rt)),
        1 => return Some(write_number(rt, plan, first, second)),
        2 => print_number(rt, &plan, first),
        4 => give(script, bytes, first)?,
        5 => return Some(run_list(rt, plan, bytes, first, second)),
        _ => run_owner(rt, &plan, first),
    }
    Some(plan)
}

fn main(rt: HostRuntime) {
    let mut bytes = [0; LIST_BYTES];
    run_script(&mut rt.stdin(), |script, plan, step| {
        run_step(&rt, script, &mut bytes, plan, step)
    });
}
