// A test of `orders`, against the output of `second orders`: every three bytes are read and packed back,
// and every period is packed with kinds and lines at the borders and read back.
#![tactic(auto)]

use orders::round_trip::{packed_then_read, read_then_packed};
use orders::{Bytes, Order};
use tree::Period;
use tree::refusal::Refusal;

// Kinds at the borders, and lines below, as numbers: most are out of range on purpose; 256 and 2^32 + 1 would be 0 and 1 if they were cut off.
const KINDS: [u64; 8] = [0, 1, 2, 3, 4, 256, 4294967297, u64::MAX];

// Lines at the borders; 256, 2^16 + 1 and 2^32 would be 0, 1 and 0 if they were cut off.
const LINES: [u64; 14] = [
    0,
    1,
    2,
    31,
    32,
    62,
    63,
    64,
    65,
    255,
    256,
    65537,
    4294967296,
    u64::MAX,
];

// How often each outcome came about, and a digest of what was read or packed.
#[derive(Clone, Copy, Default)]
struct Counts {
    open: u64,
    close: u64,
    packed: u64,
    refused_1: u64,
    refused_2: u64,
    refused_6: u64,
    refused_otherwise: u64,
    same: u64,
    digest: u32,
}

impl Counts {
    fn add_refusal(&mut self, refusal: Refusal) {
        add_one(match refusal {
            Refusal::LineAbove63 => &mut self.refused_1,
            Refusal::PeriodOutOfRange => &mut self.refused_2,
            Refusal::NoOrder => &mut self.refused_6,
            _ => &mut self.refused_otherwise,
        });
    }

    fn add_to_digest(&mut self, value: u64) {
        let low = (value % 4294967296) as u32;
        self.digest = self.digest.wrapping_mul(31).wrapping_add(low);
    }

    // Three bytes read, and packed back.
    fn add_read(&mut self, bytes: Bytes) {
        match orders::read(bytes) {
            Ok(Order::Open(line, period)) => {
                add_one(&mut self.open);
                self.add_to_digest(line);
                self.add_to_digest(period.0 as u64);
            }
            Ok(Order::Close(line)) => {
                add_one(&mut self.close);
                self.add_to_digest(line);
            }
            Err(refusal) => return self.add_refusal(refusal),
        }
        if read_then_packed(bytes) == Ok(bytes) {
            add_one(&mut self.same);
        }
    }

    // A kind, a line and a period packed, and read back.
    fn add_packed(&mut self, kind: u64, line: u64, period: Period) {
        let bytes = match orders::pack(kind, line, period) {
            Ok(bytes) => bytes,
            Err(refusal) => return self.add_refusal(refusal),
        };
        add_one(&mut self.packed);
        self.add_to_digest(u32::from_be_bytes([0, bytes.0, bytes.1, bytes.2]) as u64);
        let is_same = |order| is_of(order, kind, line, period);
        if packed_then_read(kind, line, period).is_ok_and(is_same) {
            add_one(&mut self.same);
        }
    }
}

// One more; the largest number stays.
fn add_one(count: &mut u64) {
    *count = count.saturating_add(1);
}

// Whether an order is of this kind, line and period.
fn is_of(order: Order, kind: u64, line: u64, period: Period) -> bool {
    match order {
        Order::Open(opened, rounds) => kind == 0 && opened == line && rounds.0 == period.0,
        Order::Close(closed) => kind == 1 && closed == line && period.0 == 0,
    }
}

fn count_all_read() -> Counts {
    let mut counts = Counts::default();
    for word in 0..1u32 << 24 {
        let [_, first, second, third] = word.to_be_bytes();
        counts.add_read(Bytes(first, second, third));
    }
    counts
}

fn count_all_periods(counts: &mut Counts, kind: u64, line: u64) {
    for rounds in 0..=u16::MAX {
        counts.add_packed(kind, line, Period(rounds));
    }
}

fn count_all_lines(kind: u64) -> Counts {
    let mut counts = Counts::default();
    for line in LINES {
        count_all_periods(&mut counts, kind, line);
    }
    counts
}

// That a line cannot be written is not reported: what is printed is compared.
fn print(rt: &impl Print, label: &str, count: u64) {
    let _ = println!(rt; "{label} {count}");
}

fn print_refused(rt: &impl Print, counts: &Counts) {
    print(rt, "refused 1", counts.refused_1);
    print(rt, "refused 2", counts.refused_2);
    print(rt, "refused 6", counts.refused_6);
    print(rt, "refused otherwise", counts.refused_otherwise);
}

fn print_all_read(rt: &impl Print) {
    let counts = count_all_read();
    let _ = println!(rt; "reading");
    print(rt, "open", counts.open);
    print(rt, "close", counts.close);
    print_refused(rt, &counts);
    print(rt, "packed to the same bytes", counts.same);
    print(rt, "digest", counts.digest as u64);
}

fn print_all_packed(rt: &impl Print, kind: u64) {
    let counts = count_all_lines(kind);
    print(rt, "packing kind", kind);
    print(rt, "packed", counts.packed);
    print_refused(rt, &counts);
    print(rt, "read back", counts.same);
    print(rt, "digest", counts.digest as u64);
}

fn main(rt: HostRuntime) {
    print_all_read(&rt);
    for kind in KINDS {
        print_all_packed(&rt, kind);
    }
}
