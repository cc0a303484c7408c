// The call that makes a beamtime sheet.
ghost use Rattle.gaplinte.specs.Served.{SheetServed};

// The sheet of so many rounds that begin with `first`: 65 numbers are written. It is never refused.
#[unsafe(no_mangle)]
pub extern "C" fn gaplinte_sheet(
    rows: &[u16; 1408],
    first: u64,
    rounds: u16,
    sheet: &mut [u16; 65],
) -> i64
    ensures { SheetServed rows.now first rounds sheet.new result }
{
    gaplinte::sheet::gaplinte_sheet(rows, first, rounds, sheet)
}
