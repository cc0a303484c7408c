// The calls that pack an order into three bytes, and read three bytes.
ghost use Rattle.std.specs.Prelude.{◌≡◌, ◌<◌};
ghost use Rattle.orders.specs.Reading.{line_of, call_told};
ghost use Rattle.gaplinte.specs.OrdersServed.{PackServed, call_numbers, ReadServed};

use crate::answers;
use orders::{Bytes, Order};

// Packs an order. A kind and a period of any size are checked whole.
pub fn gaplinte_pack(kind: u64, line: u64, period: u64, order: &mut [u8; 3]) -> i64
    ensures { PackServed kind line period order.old order.new result }
{
    let packed = orders::pack(kind, line, tree::period_asked(period));
    answers::write(order, packed.map(<[u8; 3]>::from))
}

// Kind, line and period of an order. A close has period 0. That the line has 6 bits is asked here, since an order holds it
// as a number of 64 bits.
fn call_numbers(order: Order) -> [u16; 3]
    requires { line_of (call_told order) < 64 }
    ensures { result ≡ call_numbers (call_told order) }
{
    match order {
        Order::Open(line, period) => [0, line as u16, period.0],
        Order::Close(line) => [1, line as u16, 0],
    }
}

// Reads an order: kind, line and period are written, or nothing where it is refused.
pub fn gaplinte_read(order: &[u8; 3], call: &mut [u16; 3]) -> i64
    ensures { ReadServed order.now call.old call.new result }
{
    let found = orders::read(Bytes::from(*order));
    answers::write(call, found.map(call_numbers))
}
