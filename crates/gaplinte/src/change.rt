// The calls that change a plan, in the record that is lent.
ghost use Rattle.tree.specs.Calls.{open_line, close_line};
ghost use Rattle.gaplinte.specs.Served.{ChangeServed};

use crate::answers;

// Opens a line, and answers its start. A period of any size is checked whole, so that none is cut to 16 bits.
pub fn gaplinte_open(rows: &mut [u16; 1408], line: u64, period: u64) -> i64
    ensures { ChangeServed (open_line line period) rows.old rows.new result }
{
    let opened = plan::change::open_rows(rows, line, tree::period_asked(period));
    answers::number(opened.map(|start| u64::from(start.0)))
}

// Closes a line.
pub fn gaplinte_close(rows: &mut [u16; 1408], line: u64) -> i64
    ensures { ChangeServed (close_line line) rows.old rows.new result }
{
    let closed = plan::change::close_rows(rows, line);
    answers::number(closed.map(|()| 0))
}
