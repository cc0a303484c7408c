// The call that runs a list of orders.
ghost use Rattle.gaplinte.specs.Served.{ListServed};

use crate::answers;

// Runs a list of orders on the record that is lent, and writes each order's answer.
pub fn gaplinte_run_list(rows: &mut [u16; 1408], orders: &[u8], answers: &mut [u8]) -> i64
    ensures { ListServed rows.old orders.now answers.old rows.new answers.new result }
{
    let ran = lists::run_list_rows(rows, orders, answers);
    answers::number(ran.map(|()| 0))
}
