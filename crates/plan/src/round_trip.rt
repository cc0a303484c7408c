// An image written and read back, and one read and written again. They are there for their contracts, which state of the calls,
// made one after the other, what Ask 9 claims.
ghost use Rattle.tree.specs.Record.{tree_of};
ghost use Rattle.plan.specs.RoundTrip.{ReadBack, WrittenAgain};

use crate::change::empty;
use crate::image::{read_image, write_image};
use tree::Plan;
use tree::refusal::Refusal;

// Writes the image of a plan, and reads it: the plan comes back. Refused with 8 where the buffer is too short.
pub fn written_then_read(plan: &Plan, buffer: &mut [u8]) -> Result<Plan, Refusal>
    ensures { ReadBack (tree_of plan.now) buffer.old buffer.new result }
{
    let length = write_image(plan, buffer)?;
    let read = read_image(empty(), &buffer[..length]);
    read.answer?;
    Ok(read.plan)
}

// Reads an image, and writes that of the plan: its bytes come back. Refused as reading is, then with 8.
pub fn read_then_written(bytes: &[u8], buffer: &mut [u8]) -> Result<usize, Refusal>
    ensures { WrittenAgain bytes.now buffer.old buffer.new result }
{
    let read = read_image(empty(), bytes);
    read.answer?;
    write_image(&read.plan, buffer)
}
