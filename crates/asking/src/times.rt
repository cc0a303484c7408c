// The period and the start of a line, and its turns.
ghost use Rattle.std.specs.Prelude.{◌≡◌, ◌<◌};
ghost use Rattle.asking.specs.Turns.{until_turn, turns_by_times};

use tree::{Period, Start};

#[derive(Clone, Copy)]
pub struct Times {
    pub period: Period,
    pub start: Start,
    ghost start_below_period: { start.0 < period.0 },
}

impl Times {
    // How many rounds lie from a round to the next one that fits these times, which may be the round itself. Of a large
    // round only the remainder enters the difference.
    pub(crate) fn until_turn(self, first: u64) -> u16
        ensures { result ≡ until_turn self.period.0 self.start.0 first }
    {
        let period = self.period.0;
        let start = self.start.0;
        let passed = (first % period as u64) as u16;
        if passed <= start {
            return start - passed;
        }
        start + (period - passed)
    }

    // How many rounds a line with these times owns among so many that begin with `first`, those past 2^64 included. Fewer
    // rounds than `needed` end before its next turn.
    pub fn turns(self, first: u64, rounds: u32) -> u64
        ensures { result ≡ turns_by_times self.period.0 self.start.0 first rounds }
    {
        let needed = self.until_turn(first) as u64 + 1;
        let asked = rounds as u64;
        if asked < needed {
            return 0;
        }
        (asked - needed) / self.period.0 as u64 + 1
    }
}
