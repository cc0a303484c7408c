// The program `book` (document 01, section Orders): runs standard input on an empty plan and prints what each order
// answered. All of its work is book_text::write_text. A read or a write that fails is reported on standard error.
#![tactic(auto)]

ghost use Rattle.std.specs.Prelude.{◌≡◌, ◌≤◌, length};
ghost use Rattle.book_text.specs.BookText.{book_text};

use book_text::LONGEST_TEXT;
use std::io::{self, Read, Write};

// One byte more than the longest list.
const MOST_INPUT: usize = 65536;

// What reading an input came to: the bytes that were read, and whether a read failed after them.
#[derive(Drop)]
struct Input<'a> {
    bytes: &'a [u8],
    ended: io::Result<()>,
}

// Reads an input into the start of the buffer, until the buffer is full, the input ends or a read fails. A read that a
// signal interrupts counts as one that failed. The loop is not `read_to_end`, which wants a heap, nor `read_exact`, which
// does not tell how much it read before it failed.
fn read_input<'a>(source: &mut impl Read, buffer: &'a mut [u8]) -> Input<'a>
    ensures { length result.bytes.now ≤ length buffer.old }
{
    let mut length = 0;
    while length < buffer.len() {
        match source.read(&mut buffer[length..]) {
            Ok(0) => break,
            Ok(more) => length += more,
            Err(error) => {
                return Input {
                    bytes: &buffer[..length],
                    ended: Err(error),
                };
            }
        }
    }
    Input {
        bytes: &buffer[..length],
        ended: Ok(()),
    }
}

// The whole text for an input, which is what main then prints, written into lent bytes.
fn write_whole<'a>(input: &[u8], lent: &'a mut [u8; LONGEST_TEXT]) -> &'a [u8]
    ensures { result.now ≡ book_text input.now }
{
    let length = book_text::write_text(input, lent);
    &lent[..length]
}

// Writes the text, until a write takes nothing or fails. A write that a signal interrupts counts as one that failed: it is
// not `write_all`, which would try again.
fn print(output: &mut impl Write, text: &[u8]) -> io::Result<()> {
    let mut rest = text;
    while !rest.is_empty() {
        match output.write(rest)? {
            0 => return Err(io::ErrorKind::WriteZero.into()),
            more => rest = &rest[more..],
        }
    }
    Ok(())
}

// One byte more than the longest list is read, so that a longer one is refused. What was read is printed before any
// report. That a report cannot be written is not reported, since there is nowhere to.
fn main(rt: HostRuntime) {
    let mut input_buffer = [0; MOST_INPUT];
    let mut text_buffer = [0; LONGEST_TEXT];
    let input = read_input(&mut rt.stdin(), &mut input_buffer);
    let text = write_whole(input.bytes, &mut text_buffer);
    let written = print(&mut rt.stdout(), text);
    if input.ended.is_err() {
        let _ = eprintln!(rt; "book: standard input: cannot be read");
    }
    if written.is_err() {
        let _ = eprintln!(rt; "book: standard output: cannot be written");
    }
}
