// The text of the program `book` (document 01, section Orders, last paragraph), written into lent bytes: a header, then
// a line for each order, or `list 7` where the list is refused.
#![tactic(auto)]

ghost use Rattle.book_text.specs.Writing.{BookWritten};

mod text;

use text::Text;

// Room for the longest text: a header of 36 bytes, and 21,845 lines of at most 23 bytes.
pub const LONGEST_TEXT: usize = 502471;

// Writes what `book` prints for its input at the start of the lent bytes, and answers how many bytes that is. The bytes
// beyond are as found. Where there is less room than for the longest text, nothing is written, and the answer is 0.
pub fn write_text(input: &[u8], text: &mut [u8]) -> usize
    ensures { BookWritten input.now text.old text.new result }
{
    if text.len() < LONGEST_TEXT {
        return 0;
    }
    let mut book = Text {
        bytes: text,
        place: 0,
    };
    book.append_book(input);
    book.place
}
