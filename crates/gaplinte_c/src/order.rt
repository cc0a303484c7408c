// The calls that pack an order into three bytes, and read three bytes.
ghost use Rattle.gaplinte.specs.OrdersServed.{PackServed, ReadServed};

// Packs an order. A period of any size is checked whole.
#[unsafe(no_mangle)]
pub extern "C" fn gaplinte_pack(kind: u64, line: u64, period: u64, order: &mut [u8; 3]) -> i64
    ensures { PackServed kind line period order.old order.new result }
{
    gaplinte::order::gaplinte_pack(kind, line, period, order)
}

// Reads an order: kind, line and period are written, or nothing where it is refused.
#[unsafe(no_mangle)]
pub extern "C" fn gaplinte_read(order: &[u8; 3], call: &mut [u16; 3]) -> i64
    ensures { ReadServed order.now call.old call.new result }
{
    gaplinte::order::gaplinte_read(order, call)
}
