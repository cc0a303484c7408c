// A list of orders run on a plan (document 01, section Orders): three bytes in and two bytes out for each order.
#![tactic(auto)]

ghost use Rattle.std.specs.Prelude.{◌≡◌, true, false, ◌+◌, ◌<◌, ◌/◌, [], ◌∷◌, ◌++◌, length, take, drop, None};
ghost use Rattle.tree.specs.Answered.{refusal_in};
ghost use Rattle.tree.specs.Record.{legal};
ghost use Rattle.bridge.specs.Rows.{plan_of};
ghost use Rattle.orders.specs.Order.{order_of};
ghost use Rattle.lists.specs.Lists.{orders_of, result_field, answer_word, high_byte, low_byte, length_refused, list_refusal};
ghost use Rattle.lists.specs.Runs.{answer_in, OrderRan, Runnable, OrdersRan, CheckedRan, ListRan};

use orders::{Bytes, Order};
use tree::changed::Changed;
use tree::refusal::Refusal;
use tree::{Plan, Start};

// One order: refused with 6 where it cannot be read, else run as the open or the close that it is. An open answers with the
// line's start, a close with none.
// That the record is a tree is asked here and below, since no type can hold the array and that fact while the array is written.
fn run_order(rows: &mut [u16; 1408], bytes: Bytes) -> Result<Option<Start>, Refusal>
    requires { legal rows.old ≡ true }
    ensures { OrderRan (order_of bytes) rows.old rows.new (answer_in result) }
{
    match orders::read(bytes)? {
        Order::Open(line, period) => Ok(Some(lines::open_line(rows, line, period)?)),
        Order::Close(line) => {
            lines::close_line(rows, line)?;
            Ok(None)
        }
    }
}

// An answer in one word: result 4 bits, which is 0 or the refusal, then start 12 bits, which is 0 unless a line was opened.
// That a refusal fits 4 bits is asked here: those of an order are 6 at most, and document 02 has one that does not fit, 16.
fn answer_word(answer: Result<Option<Start>, Refusal>) -> u16
    requires { result_field (answer_in answer) < 16 }
    ensures { result ≡ answer_word (answer_in answer) }
{
    match answer {
        Ok(Some(start)) => start.0,
        Ok(None) => 0,
        Err(refusal) => u16::from(u8::from(refusal)) << 12,
    }
}

// Writes an answer's two bytes, the first one highest.
fn write_answer(answers: &mut [u8], at: usize, answer: Result<Option<Start>, Refusal>)
    requires room { at + 1 < length answers.old }
    requires result { result_field (answer_in answer) < 16 }
    ensures { answers.new ≡ take at answers.old ++ (high_byte (answer_in answer) ∷ low_byte (answer_in answer) ∷ []) ++ drop (at + 2) answers.old }
{
    answers[at..at + 2].copy_from_slice(&answer_word(answer).to_be_bytes());
}

// The orders in turn, each on the rows that the one before it left. Answers whether any was carried out.
// The answers are written by index, since of a slice that `as_chunks_mut` took apart no proof knows what it holds afterwards.
fn run_orders(rows: &mut [u16; 1408], orders: &[u8], answers: &mut [u8]) -> bool
    requires { Runnable rows.old orders.now answers.old (length orders.now / 3) }
    ensures { OrdersRan (orders_of orders.now) rows.old rows.new answers.old answers.new result }
{
    let (threes, _) = orders.as_chunks::<3>();
    let mut any = false;
    for (k, order) in threes.iter().enumerate() {
        let answer = run_order(rows, Bytes::from(*order));
        any |= answer.is_ok();
        write_answer(answers, 2 * k, answer);
    }
    any
}

// The length is not a multiple of 3, or above 65,535.
fn length_refused(length: usize) -> bool
    ensures { result ≡ length_refused length }
{
    length % 3 != 0 || 65535 < length
}

// The list's own checks, on its length and that of the lent bytes: 7, then 8.
fn check_lengths(length: usize, room: usize) -> Result<(), Refusal>
    ensures { refusal_in result ≡ list_refusal length room }
{
    if length_refused(length) {
        return Err(Refusal::ListLength);
    }
    if room < 2 * (length / 3) {
        return Err(Refusal::BufferTooShort);
    }
    Ok(())
}

// Runs a list that passes its checks on a record that is no tree: on the empty plan, which takes the record's place where an
// order is carried out.
fn run_in_empty(rows: &mut [u16; 1408], orders: &[u8], answers: &mut [u8])
    requires { (legal rows.old ≡ false) × (list_refusal (length orders.now) (length answers.old) ≡ None) }
    ensures { CheckedRan (plan_of rows.old) orders.now answers.old (plan_of rows.new) answers.new }
{
    let mut fresh = [0; 1408];
    if run_orders(&mut fresh, orders, answers) {
        *rows = fresh;
    }
}

// Runs a list that passes its checks: in place where the record is a tree.
fn run_checked(rows: &mut [u16; 1408], orders: &[u8], answers: &mut [u8])
    requires { list_refusal (length orders.now) (length answers.old) ≡ None }
    ensures { CheckedRan (plan_of rows.old) orders.now answers.old (plan_of rows.new) answers.new }
{
    if paths::legal(rows) {
        run_orders(rows, orders, answers);
    } else {
        run_in_empty(rows, orders, answers);
    }
}

// Runs a list of orders on a record that is lent. Refused with 7 or 8, the first that applies: then record and lent bytes are
// as found. Else each order has its two bytes written, whether it is refused or not, and the lent bytes beyond are as found.
// The record is as found where no order was carried out.
pub fn run_list_rows(
    rows: &mut [u16; 1408],
    orders: &[u8],
    answers: &mut [u8],
) -> Result<(), Refusal>
    ensures { ListRan (plan_of rows.old) orders.now answers.old (refusal_in result) (plan_of rows.new) answers.new }
{
    check_lengths(orders.len(), answers.len())?;
    run_checked(rows, orders, answers);
    Ok(())
}

// The same with a plan by value, which is given back, so that the two are no one function.
pub fn run_list(plan: Plan, orders: &[u8], answers: &mut [u8]) -> Changed<Result<(), Refusal>>
    ensures { ListRan plan orders.now answers.old (refusal_in result.answer) result.plan answers.new }
{
    let mut next = plan;
    let answer = run_list_rows(&mut next.rows, orders, answers);
    Changed { answer, plan: next }
}
