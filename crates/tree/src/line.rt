// A line of the recorder, by its number.
ghost use Rattle.std.specs.Prelude.{◌<◌};

#[derive(Clone, Copy, Debug)]
pub struct Line {
    pub number: usize,
    ghost below_64: { number < 64 },
}
