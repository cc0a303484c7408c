// The round that is asked for.
ghost use Rattle.std.specs.Prelude.{◌≡◌, ◌+◌, ◌%◌, ◌^◌, ◌<◌};

// The round that comes `ahead` rounds after round `from`. It may be past 2^64.
#[derive(Clone, Copy)]
pub struct Round {
    pub from: u64,
    pub ahead: u16,
}

impl Round {
    // What the round leaves, divided by `divisor`. Only the remainder of `from` enters the sum, so that it is of 64 bits. With
    // none ahead, as for owner, the sum is not divided again.
    pub(crate) fn remainder(self, divisor: u64) -> u64
        requires { (0 < divisor) × (divisor < 2 ^ 32) }
        ensures { result ≡ (self.from + self.ahead) % divisor }
    {
        let sum = self.from % divisor + self.ahead as u64;
        if sum < divisor {
            return sum;
        }
        sum % divisor
    }
}
