// Orders (document 01, section Orders): packing one into three bytes, and reading three bytes.
// An order is a word of 24 bits: kind 2, line 6, period 12 and filler 4 bits, most significant bit first.
#![tactic(auto)]

ghost use Rattle.std.specs.Prelude.{◌≡◌, ◌<◌, [], ◌∷◌};
ghost use Rattle.tree.specs.Answered.{outcome_of};
ghost use Rattle.orders.specs.Order.{order_of, order_with, bytes_of, fields_of};
ghost use Rattle.orders.specs.Packing.{packing};
ghost use Rattle.orders.specs.Reading.{reading, call_told};

use bits::{field_of, join};
use tree::Period;
use tree::refusal::Refusal;

pub mod round_trip;

// Three bytes, the first one highest.
#[derive(Clone, Copy, Debug, PartialEq, Eq)]
pub struct Bytes(pub u8, pub u8, pub u8);

// The same three bytes as an array.
impl From<[u8; 3]> for Bytes {
    ghost from_gives = { λ array bytes. array ≡ bytes.0 ∷ bytes.1 ∷ bytes.2 ∷ [] };

    fn from(array: [u8; 3]) -> Bytes {
        Bytes(array[0], array[1], array[2])
    }
}

impl From<Bytes> for [u8; 3] {
    ghost from_gives = { λ bytes array. array ≡ bytes.0 ∷ bytes.1 ∷ bytes.2 ∷ [] };

    fn from(bytes: Bytes) -> [u8; 3] {
        [bytes.0, bytes.1, bytes.2]
    }
}

// What can be read: the line and the period to open, or the line to close. The line is a number, as the calls take it.
#[derive(Clone, Copy, Debug, PartialEq, Eq)]
pub enum Order {
    Open(u64, Period),
    Close(u64),
}

// The fields of an order as its bits say. The kind is a number, since 2 and 3 are fields too, which document 01 refuses.
#[derive(Clone, Copy, Debug, PartialEq, Eq)]
pub struct OrderFields {
    pub kind: u64,
    pub line: u64,
    pub period: Period,
    pub filler: u64,
}

// The word that three bytes are. By shifts and masks, here and below: the form that document 01 names.
fn word_of(bytes: Bytes) -> u64
    ensures { result ≡ order_of bytes }
{
    let first = bytes.0 as u64;
    let second = bytes.1 as u64;
    let third = bytes.2 as u64;
    join(join(first, 8, second), 8, third)
}

// The three bytes of a word of 24 bits.
fn split(word: u64) -> Bytes
    ensures { result ≡ bytes_of word }
{
    let first = field_of(word, 8, 16) as u8;
    let second = field_of(word, 8, 8) as u8;
    let third = field_of(word, 8, 0) as u8;
    Bytes(first, second, third)
}

// The word with these fields and no bit set in its filler. What fits a field is asked here alone.
fn word_with(kind: u64, line: u64, period: u64) -> u64
    requires { (kind < 4) × ((line < 64) × (period < 4096)) }
    ensures { result ≡ order_with kind line period }
{
    let kind_line = join(kind, 6, line);
    let kind_line_period = join(kind_line, 12, period);
    join(kind_line_period, 4, 0)
}

// The fields of three bytes, whether or not they can be read as an order.
pub fn fields(bytes: Bytes) -> OrderFields
    ensures { result ≡ fields_of (order_of bytes) }
{
    let word = word_of(bytes);
    OrderFields {
        kind: field_of(word, 2, 22),
        line: field_of(word, 6, 16),
        period: Period(field_of(word, 12, 4) as u16),
        filler: field_of(word, 4, 0),
    }
}

// Reading three bytes. Refused with 6: a kind above 1, a set bit in the filler, a close whose period is not 0.
pub fn read(bytes: Bytes) -> Result<Order, Refusal>
    ensures { outcome_of call_told result ≡ reading (order_of bytes) }
{
    let OrderFields {
        kind,
        line,
        period,
        filler,
    } = fields(bytes);
    if filler != 0 {
        return Err(Refusal::NoOrder);
    }
    // The kind field is matched as a number, with a range that is refused: document 01 names this form.
    match kind {
        0 => Ok(Order::Open(line, period)),
        1 => {
            if period.0 != 0 {
                return Err(Refusal::NoOrder);
            }
            Ok(Order::Close(line))
        }
        2..=u64::MAX => Err(Refusal::NoOrder),
    }
}

// Packing an order. Refused, in this sequence: 6 for a kind above 1, 1 for a line above 63, 2 for a period above 4,095,
// 6 for a close whose period is not 0.
pub fn pack(kind: u64, line: u64, period: Period) -> Result<Bytes, Refusal>
    ensures { outcome_of (λ b. b) result ≡ packing kind line period.0 }
{
    let rounds = period.0 as u64;
    // As in reading, the form that document 01 names.
    match kind {
        0 | 1 => {}
        2..=u64::MAX => return Err(Refusal::NoOrder),
    }
    // A test alone: no line is made, since the number goes into the word as it is.
    if 63 < line {
        return Err(Refusal::LineAbove63);
    }
    if 4095 < rounds {
        return Err(Refusal::PeriodOutOfRange);
    }
    if kind == 1 && rounds != 0 {
        return Err(Refusal::NoOrder);
    }
    Ok(split(word_with(kind, line, rounds)))
}
