// The call that shows a line.
ghost use Rattle.gaplinte.specs.Served.{ShowServed};

// Shows a line: 24 numbers are written, or none where the call is refused.
#[unsafe(no_mangle)]
pub extern "C" fn gaplinte_show(rows: &[u16; 1408], line: u64, shown: &mut [u16; 24]) -> i64
    ensures { ShowServed rows.now line shown.old shown.new result }
{
    gaplinte::show::gaplinte_show(rows, line, shown)
}
