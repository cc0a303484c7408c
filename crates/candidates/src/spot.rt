// A candidate, and the node on a line's path where it stands.
ghost use Rattle.std.specs.Prelude.{◌≡◌, ◌+◌, ◌*◌, ◌≤◌};

use tree::Start;
use tree::line::Line;

// The node at a level of a line's path, with its step and its offset.
#[derive(Clone, Copy)]
pub struct PathNode {
    pub line: Line,
    pub level: usize,
    pub step: u16,
    pub offset: u16,
}

// A candidate: a node on a line's path, its divisor, and the class that is taken. Its start is at most 4,095.
#[derive(Clone, Copy)]
pub struct Spot {
    pub node: PathNode,
    pub divisor: u16,
    pub class: u16,
    ghost start_in_range: { node.offset + class * node.step ≤ 4095 },
}

// The start r + i·m that a class of a node offers, whatever line leads to the node.
pub fn start_in(offset: u16, step: u16, class: u16) -> Start
    requires { offset + class * step ≤ 4095 }
    ensures { result.0 ≡ offset + class * step }
{
    Start(offset + class * step)
}

impl Spot {
    // The start that the candidate offers.
    pub fn start(self) -> Start
        ensures { result.0 ≡ self.node.offset + self.class * self.node.step }
    {
        start_in(self.node.offset, self.node.step, self.class)
    }
}
