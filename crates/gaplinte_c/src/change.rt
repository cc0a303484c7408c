// The calls that change a plan, in the record that is lent.
ghost use Rattle.tree.specs.Calls.{open_line, close_line};
ghost use Rattle.gaplinte.specs.Served.{ChangeServed};

// Opens a line, and answers its start. A period of any size is checked whole, so that none is cut to 16 bits.
#[unsafe(no_mangle)]
pub extern "C" fn gaplinte_open(rows: &mut [u16; 1408], line: u64, period: u64) -> i64
    ensures { ChangeServed (open_line line period) rows.old rows.new result }
{
    gaplinte::change::gaplinte_open(rows, line, period)
}

// Closes a line.
#[unsafe(no_mangle)]
pub extern "C" fn gaplinte_close(rows: &mut [u16; 1408], line: u64) -> i64
    ensures { ChangeServed (close_line line) rows.old rows.new result }
{
    gaplinte::change::gaplinte_close(rows, line)
}
