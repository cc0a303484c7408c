// The walker: its place is two numbers that are lent, the next round and the count of owned rounds.
ghost use Rattle.gaplinte.specs.Served.{WalkServed};

use crate::answers;
use crate::ask::owner_value;
use plan::walker::WalkerPlace;

// The owner of the next round: its line, or 64 plus the rest where the round is idle. The place moves on; where the call
// is refused it is as found.
pub fn gaplinte_walk(rows: &[u16; 1408], place: &mut [u64; 2]) -> i64
    ensures { WalkServed rows.now place.old place.new result }
{
    let [next, owned] = *place;
    let walked = plan::walker::walk(rows, WalkerPlace { next, owned });
    *place = [walked.place.next, walked.place.owned];
    answers::number(walked.answer.map(owner_value))
}
