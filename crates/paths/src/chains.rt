// Lines in chains, one for each of 128 buckets: what two lines of one bucket have in common is the caller's to say.
// An entry is 0, or 1 + a line: a chain goes from its head's entry by links to smaller and smaller lines.
ghost use Rattle.std.specs.Prelude.{◌≡◌, ◌<◌, get_or, length, replicate};
ghost use Rattle.paths.specs.Chains.{WholeArrays, with_line};

use tree::line::Line;

#[derive(Clone, Copy)]
pub struct Chains {
    pub head: [u8; 128],
    pub link: [u8; 64],
}

impl Chains {
    // No line is in a chain.
    pub fn empty() -> Chains
        ensures head { result.head ≡ replicate 128 0 }
        ensures link { result.link ≡ replicate 64 0 }
    {
        Chains {
            head: [0; 128],
            link: [0; 64],
        }
    }

    // The first entry of a bucket's chain.
    pub fn first(&self, bucket: usize) -> usize
        requires { (bucket < 128) × (WholeArrays self.now) }
        ensures { result ≡ get_or self.now.head bucket 0 }
    {
        self.head[bucket] as usize
    }

    // The entry after a line in its chain.
    pub fn next(&self, line: Line) -> usize
        requires { WholeArrays self.now }
        ensures { result ≡ get_or self.now.link line.number 0 }
    {
        self.link[line.number] as usize
    }

    // Enters a line at the head of a bucket's chain.
    pub fn enter(&mut self, bucket: usize, line: Line)
        requires { (bucket < 128) × (WholeArrays self.old) }
        ensures { self.new ≡ with_line self.old bucket line.number }
    {
        self.link[line.number] = self.head[bucket];
        self.head[bucket] = line.number as u8 + 1;
    }
}
