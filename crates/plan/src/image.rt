// The image of a plan (document 02, Ask 9): written into lent bytes, and read. A record that is no tree is written as the empty plan.
ghost use Rattle.bridge.specs.Rows.{tree_of_rows};
ghost use Rattle.images.specs.Images.{ImageWritten, ImageRead};

use crate::change::empty;
use crate::record::PlanRecord;
use paths::record::TreeRecord;
use paths::tree_record::tree_record;
use tree::Plan;
use tree::changed::Changed;
use tree::refusal::Refusal;

// Writes the image of a plan into a lent buffer, and answers how many bytes it has. The bytes behind these are left alone.
// Refused with 8 where the buffer has fewer.
pub fn write_image<P: PlanRecord>(plan: &P, buffer: &mut [u8]) -> Result<usize, Refusal>
    ensures { ImageWritten (tree_of_rows (P.numbers plan.now)) buffer.old buffer.new result }
{
    if let Some(tree) = tree_record(plan.rows()) {
        return images::write::write_image(tree, buffer);
    }
    let fresh = empty();
    images::write::write_image(TreeRecord { rows: &fresh.rows }, buffer)
}

// Reads an image into a record that is lent, which then has the image's tree. Refused with 13 where a field is cut off and with
// 14 where one is out of range, whichever stands first; after the last field with 13 where a byte follows, with 14 where the rest
// of the last byte is not 0, and with 14 where the tree is not legal. The record is as found where the call is refused.
pub fn read_image_rows(rows: &mut [u16; 1408], bytes: &[u8]) -> Result<(), Refusal>
    ensures { ImageRead bytes.now rows.old rows.new result }
{
    *rows = images::read::read_image(bytes)?.rows;
    Ok(())
}

// The same with a plan by value, which is given back, so that the two are no one function.
pub fn read_image(plan: Plan, bytes: &[u8]) -> Changed<Result<(), Refusal>>
    ensures { ImageRead bytes.now plan.rows result.plan.rows result.answer }
{
    let mut next = plan;
    let answer = read_image_rows(&mut next.rows, bytes);
    Changed { answer, plan: next }
}
