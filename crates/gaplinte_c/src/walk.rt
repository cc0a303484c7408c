// The walker: its place is two numbers that are lent, the next round and the count of owned rounds.
ghost use Rattle.gaplinte.specs.Served.{WalkServed};

// The owner of the next round: its line, or 64 plus the rest where the round is idle. The place moves on; where the call
// is refused it is as found.
#[unsafe(no_mangle)]
pub extern "C" fn gaplinte_walk(rows: &[u16; 1408], place: &mut [u64; 2]) -> i64
    ensures { WalkServed rows.now place.old place.new result }
{
    gaplinte::walk::gaplinte_walk(rows, place)
}
