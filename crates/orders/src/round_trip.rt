// The two calls one after the other, so that each round trip is a promise about code that runs.
ghost use Rattle.std.specs.Prelude.{◌≡◌};
ghost use Rattle.tree.specs.Answered.{outcome_of};
ghost use Rattle.tree.specs.Calls.{gives_unless};
ghost use Rattle.orders.specs.Order.{order_of};
ghost use Rattle.orders.specs.Packing.{packing_refusal};
ghost use Rattle.orders.specs.Reading.{reading_refusal, call_of, call_told};

use crate::{Bytes, Order};
use tree::Period;
use tree::refusal::Refusal;

// The kind is a number of any size, as packing takes it.
// An order packed and then read: the arguments come back, or packing's refusal.
// It is there for its contract, which states of the real calls what `packed_then_read_outcome` states of the definitions.
pub fn packed_then_read(kind: u64, line: u64, period: Period) -> Result<Order, Refusal>
    ensures { outcome_of call_told result ≡ gives_unless (packing_refusal kind line period.0) (call_of kind line period.0) }
{
    crate::read(crate::pack(kind, line, period)?)
}

// Three bytes read and then packed: the same bytes come back, or reading's refusal.
// It is there for its contract, which states of the real calls what `read_then_packed_outcome` states of the definitions.
pub fn read_then_packed(bytes: Bytes) -> Result<Bytes, Refusal>
    ensures { outcome_of (λ b. b) result ≡ gives_unless (reading_refusal (order_of bytes)) bytes }
{
    match crate::read(bytes)? {
        Order::Open(line, period) => crate::pack(0, line, period),
        Order::Close(line) => crate::pack(1, line, Period(0)),
    }
}
