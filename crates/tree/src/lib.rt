// The types of document 01's plan, and two functions over them. The definitions that give them their meaning are in specs/.
#![tactic(auto)]

ghost use Rattle.std.specs.Prelude.{◌≡◌, ltb, if◌then◌else◌};
ghost use Rattle.tree.specs.Refusals.{period_out_of_range};

pub mod changed;
pub mod line;
mod line_asked;
pub mod refusal;

// One row of a path: a node's weight, and the edge taken there.
#[derive(Clone, Copy)]
pub struct Row {
    pub weight: u16,
    pub edge: u16,
}

// A period in rounds. A type of its own, so that it is never taken for a start.
#[derive(Clone, Copy, Debug, PartialEq, Eq)]
pub struct Period(pub u16);

impl Period {
    // Refusal 2 of open, trial and reason.
    pub fn is_out_of_range(self) -> bool
        ensures { result ≡ period_out_of_range self.0 }
    {
        self.0 == 0 || 4095 < self.0
    }
}

// A start in rounds.
#[derive(Clone, Copy, Debug, PartialEq, Eq)]
pub struct Start(pub u16);

// A plan of rounds: for each of the 64 lines its path, 11 rows of weight and edge.
// Row k of line L stands at 22 * L + 2 * k, flat as the library lends it to C; rows that are not used are 0 and 0.
#[derive(Clone, Copy)]
pub struct Plan {
    pub rows: [u16; 1408],
}

// A beamtime sheet (document 02, Ask 5): the turns of each of the 64 lines, 0 for a closed one, and the idle rounds.
#[derive(Clone, Copy)]
pub struct Sheet {
    pub turns: [u16; 64],
    pub idle: u16,
}

// A period of any size as open and packing take it: all above 4,095 are refused alike, so 4,096 stands for them. It keeps no
// such period, so that it is no `From`.
pub fn period_asked(period: u64) -> Period
    ensures { result.0 ≡ (if ltb 4095 period then 4096 else period) }
{
    if 4095 < period {
        return Period(4096);
    }
    Period(period as u16)
}
