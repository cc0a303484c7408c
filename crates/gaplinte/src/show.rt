// The call that shows a line.
ghost use Rattle.std.specs.Prelude.{◌≡◌};
ghost use Rattle.plan.specs.Ask.{shown_in};
ghost use Rattle.gaplinte.specs.Served.{shown_numbers, ShowServed};

use crate::answers;
use plan::ask::Shown;

// Period and start, then weight and edge of each row.
fn shown_numbers(line: Shown) -> [u16; 24]
    ensures { result ≡ shown_numbers (shown_in line) }
{
    let mut shown = [0; 24];
    shown[0] = line.period.0;
    shown[1] = line.start.0;
    for (k, row) in line.rows.iter().enumerate() {
        shown[2 + 2 * k] = row.weight;
        shown[2 + 2 * k + 1] = row.edge;
    }
    shown
}

// Shows a line: 24 numbers are written, or none where the call is refused.
pub fn gaplinte_show(rows: &[u16; 1408], line: u64, shown: &mut [u16; 24]) -> i64
    ensures { ShowServed rows.now line shown.old shown.new result }
{
    let found = plan::ask::show(rows, line);
    answers::write(shown, found.map(shown_numbers))
}
