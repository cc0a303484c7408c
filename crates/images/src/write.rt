// Writing the image of a legal record. Places and widths are counted in bits.
ghost use Rattle.std.specs.Prelude.{◌≡◌, ◌≤◌, [], ◌∷◌, length};
ghost use Rattle.tree.specs.Record.{path_at};
ghost use Rattle.tree.specs.Image.{lines_below, path_bits, lines_bits};
ghost use Rattle.bridge.specs.Rows.{tree_of_rows};
ghost use Rattle.images.specs.Added.{Adds};
ghost use Rattle.images.specs.Images.{ImageWritten};
ghost use Rattle.images.specs.Writing.{line_if_open, Room, BitsWritten, Counted};

use crate::bytes::put_number;
use paths::path_length;
use paths::record::TreeRecord;
use tree::Row;
use tree::line::Line;
use tree::refusal::Refusal;

// How many lines are open, and how many bits their image has.
#[derive(Clone, Copy)]
struct Size {
    lines: u64,
    bits: usize,
}

// Counts the open lines, and the bits of their image.
fn size_of(tree: TreeRecord<'_>) -> Size
    ensures { Counted (lines_below 64 (tree_of_rows tree.entry.rows.now)) result }
{
    let mut size = Size { lines: 0, bits: 7 };
    for number in 0..64 {
        let rows = path_length(tree.rows, Line { number });
        if rows != 0 {
            size.lines += 1;
            size.bits += 10 + 24 * rows;
        }
    }
    size
}

// Writes a row, the weight before the edge.
fn write_row(row: Row, buffer: &mut [u8], at: usize)
    requires fits { (row.weight ≤ 4095) × (row.edge ≤ 4095) }
    requires room { Room at (path_bits (row ∷ [])) (length buffer.old) }
    ensures { Adds at (path_bits (row ∷ [])) buffer.old buffer.new }
{
    put_number(buffer, at, 12, u64::from(row.weight));
    put_number(buffer, at + 12, 12, u64::from(row.edge));
}

// Writes the rows of a line's path, and answers the place behind them.
fn write_path(tree: TreeRecord<'_>, line: Line, count: usize, buffer: &mut [u8], at: usize) -> usize
    requires counted { count ≡ length (path_at tree.rows.now line.number) }
    requires room { Room at (path_bits (path_at tree.rows.now line.number)) (length buffer.old) }
    ensures { BitsWritten at (path_bits (path_at tree.entry.rows.now line.number)) buffer.old buffer.new result }
{
    for k in 0..count {
        write_row(paths::row(tree.rows, line, k), buffer, at + 24 * k);
    }
    at + 24 * count
}

// Writes a line where it is open, and answers the place behind it.
fn write_line(tree: TreeRecord<'_>, line: Line, buffer: &mut [u8], at: usize) -> usize
    requires { Room at (lines_bits (line_if_open line.number (path_at tree.rows.now line.number))) (length buffer.old) }
    ensures { BitsWritten at (lines_bits (line_if_open line.number (path_at tree.entry.rows.now line.number))) buffer.old buffer.new result }
{
    let count = path_length(tree.rows, line);
    if count == 0 {
        return at;
    }
    put_number(buffer, at, 6, line.number as u64);
    put_number(buffer, at + 6, 4, count as u64);
    write_path(tree, line, count, buffer, at + 10)
}

// Writes the open lines in rising number.
fn write_lines(tree: TreeRecord<'_>, buffer: &mut [u8], at: usize)
    requires { Room at (lines_bits (lines_below 64 (tree_of_rows tree.rows.now))) (length buffer.old) }
    ensures { Adds at (lines_bits (lines_below 64 (tree_of_rows tree.entry.rows.now))) buffer.old buffer.new }
{
    let mut next = at;
    for number in 0..64 {
        next = write_line(tree, Line { number }, buffer, next);
    }
}

// Writes the image, and answers how many bytes it has. Refused with 8, and nothing written, where the buffer has fewer.
pub fn write_image(tree: TreeRecord<'_>, buffer: &mut [u8]) -> Result<usize, Refusal>
    ensures { ImageWritten (tree_of_rows tree.entry.rows.now) buffer.old buffer.new result }
{
    let size = size_of(tree);
    let length = size.bits.div_ceil(8);
    if buffer.len() < length {
        return Err(Refusal::BufferTooShort);
    }
    put_number(buffer, 0, 7, size.lines);
    write_lines(tree, buffer, 7);
    Ok(length)
}
