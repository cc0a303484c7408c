// The call that makes a beamtime sheet.
ghost use Rattle.gaplinte.specs.Served.{SheetServed};

use crate::answers;

// The sheet of so many rounds that begin with `first`: 65 numbers are written, the turns of the 64 lines and then the idle
// rounds. It is never refused.
pub fn gaplinte_sheet(rows: &[u16; 1408], first: u64, rounds: u16, sheet: &mut [u16; 65]) -> i64
    ensures { SheetServed rows.now first rounds sheet.new result }
{
    let made = plan::sheet::sheet(rows, first, rounds);
    sheet[..64].copy_from_slice(&made.turns);
    sheet[64] = made.idle;
    answers::number(Ok(0))
}
