// The line that a call is asked for, by a number of any size.
ghost use Rattle.tree.specs.Answered.{LineOrRefusal};

use crate::line::Line;
use crate::refusal::Refusal;

impl TryFrom<u64> for Line {
    type Error = Refusal;

    ghost try_from_gives = { LineOrRefusal };

    fn try_from(number: u64) -> Result<Self, Refusal> {
        if 63 < number {
            return Err(Refusal::LineAbove63);
        }
        Ok(Line {
            number: number as usize,
        })
    }
}
