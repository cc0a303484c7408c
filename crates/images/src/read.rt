// Reading an image, field by field, into a record. Places and widths are counted in bits.
ghost use Rattle.std.specs.Prelude.{◌+◌, ◌*◌, ◌≡◌, ◌≤◌};
ghost use Rattle.tree.specs.Bits.{bits_of};
ghost use Rattle.tree.specs.ImageReading.{read_field, read_row, read_lines, read_plan, read_outcome};
ghost use Rattle.tree.specs.Answered.{outcome_of};
ghost use Rattle.bridge.specs.Rows.{plan_given};
ghost use Rattle.images.specs.Parts.{most_line_bits, most_bits, part_told, PathRead, LineRead, LinesIn};

use crate::bytes::number_at;
use crate::part::Part;
use booking::{clear_line, put_row};
use tree::line::Line;
use tree::refusal::Refusal;
use tree::{Plan, Row};

// The field of so many bits at a place. Refused with 13 where bits of it are missing, then with 14 where its number is out of range.
fn read_field(
    bytes: &[u8],
    at: usize,
    width: usize,
    least: u64,
    most: u64,
) -> Result<Part<u64>, Refusal>
    requires { (width ≤ 16) × (at + width ≤ most_bits) }
    ensures { outcome_of part_told result ≡ read_field width least most (bits_of bytes.now) at }
{
    let next = at + width;
    if bytes.len() < next.div_ceil(8) {
        return Err(Refusal::ImageLength);
    }
    let value = number_at(bytes, at, width);
    if value < least {
        return Err(Refusal::ImageField);
    }
    if most < value {
        return Err(Refusal::ImageField);
    }
    Ok(Part { value, next })
}

// A row: a weight that is not 0, and an edge.
fn read_row(bytes: &[u8], at: usize) -> Result<Part<Row>, Refusal>
    requires { at + 24 ≤ most_bits }
    ensures { outcome_of part_told result ≡ read_row (bits_of bytes.now) at }
{
    let weight = read_field(bytes, at, 12, 1, 4095)?;
    let edge = read_field(bytes, weight.next, 12, 0, 4095)?;
    Ok(Part {
        value: Row {
            weight: weight.value as u16,
            edge: edge.value as u16,
        },
        next: edge.next,
    })
}

// So many rows, which become those of a line. Answers the place behind them.
fn read_path(
    bytes: &[u8],
    at: usize,
    count: usize,
    rows: &mut [u16; 1408],
    line: Line,
) -> Result<usize, Refusal>
    requires { (count ≤ 11) × (at + 24 * count ≤ most_bits) }
    ensures { PathRead count (bits_of bytes.now) at line.number rows.old rows.new result }
{
    clear_line(rows, line);
    let mut next = at;
    for k in 0..count {
        let row = read_row(bytes, next)?;
        put_row(rows, line, k, row.value);
        next = row.next;
    }
    Ok(next)
}

// A line: its number, the length of its path and the path, which is written into its rows. Answers the number.
fn read_line(bytes: &[u8], at: usize, rows: &mut [u16; 1408]) -> Result<Part<u64>, Refusal>
    requires { at + most_line_bits ≤ most_bits }
    ensures { LineRead (bits_of bytes.now) at rows.old rows.new result }
{
    let number = read_field(bytes, at, 6, 0, 63)?;
    let count = read_field(bytes, number.next, 4, 1, 11)?;
    let line = Line {
        number: number.value as usize,
    };
    let next = read_path(bytes, count.next, count.value as usize, rows, line)?;
    Ok(Part {
        value: number.value,
        next,
    })
}

// Whether the numbers of the lines rise, and the place behind the lines.
#[derive(Clone, Copy)]
pub struct LinesRead {
    pub rising: bool,
    pub next: usize,
}

// So many lines. Each is written into its rows, also where the numbers do not rise.
fn read_lines(
    bytes: &[u8],
    at: usize,
    count: u64,
    rows: &mut [u16; 1408],
) -> Result<LinesRead, Refusal>
    requires { at + most_line_bits * count ≤ most_bits }
    ensures { LinesIn (read_lines count (bits_of bytes.now) at) rows.old rows.new result }
{
    let mut rising = true;
    let mut least = 0;
    let mut next = at;
    for _ in 0..count {
        let line = read_line(bytes, next, rows)?;
        rising &= least <= line.value;
        least = line.value + 1;
        next = line.next;
    }
    Ok(LinesRead { rising, next })
}

// The number of lines, and the lines.
fn read_plan(bytes: &[u8], rows: &mut [u16; 1408]) -> Result<LinesRead, Refusal>
    ensures { LinesIn (read_plan (bits_of bytes.now)) rows.old rows.new result }
{
    let count = read_field(bytes, 0, 7, 0, 64)?;
    read_lines(bytes, count.next, count.value, rows)
}

// Reads an image. The first field that is cut off is refused with 13, the first that is out of range with 14, whichever stands
// first. After the last one a further byte is refused with 13, a 1 in the rest of the last byte with 14, and lines that make no
// legal tree with 14.
pub fn read_image(bytes: &[u8]) -> Result<Plan, Refusal>
    ensures { outcome_of (λ plan. plan) result ≡ plan_given (read_outcome bytes.now) }
{
    let mut plan = Plan { rows: [0; 1408] };
    let lines = read_plan(bytes, &mut plan.rows)?;
    let length = lines.next.div_ceil(8);
    if length < bytes.len() {
        return Err(Refusal::ImageLength);
    }
    if number_at(bytes, lines.next, 8 * length - lines.next) != 0 {
        return Err(Refusal::ImageField);
    }
    if !lines.rising {
        return Err(Refusal::ImageField);
    }
    if !paths::legal(&plan.rows) {
        return Err(Refusal::ImageField);
    }
    Ok(plan)
}
