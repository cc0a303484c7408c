// The number that a call answers, by what it gave or why it was refused.
ghost use Rattle.std.specs.Prelude.{◌≡◌, ◌<◌, ◌^◌, IfOk, MatchResult};
ghost use Rattle.tree.specs.Answered.{outcome_of};
ghost use Rattle.gaplinte.specs.Answer.{IsAnswer, zero_value};

use tree::refusal::Refusal;

// The value, or minus the number of the refusal. That a value stays below 2^63 is asked here and by no type, since owner and
// turns give numbers of 64 bits.
pub(crate) fn number(outcome: Result<u64, Refusal>) -> i64
    requires { IfOk outcome (λ value. value < 2 ^ 63) }
    ensures { IsAnswer (outcome_of (λ value. value) outcome) result }
{
    match outcome {
        Ok(value) => value as i64,
        Err(refusal) => -i64::from(u8::from(refusal)),
    }
}

// The same of a call that writes what it gives into the record lent, which stays as found where the call is refused.
pub(crate) fn write<A: Copy>(lent: &mut A, outcome: Result<A, Refusal>) -> i64
    ensures answer { IsAnswer (zero_value (outcome_of (λ given. given) outcome)) result }
    ensures left { MatchResult outcome (λ given. lent.new ≡ given) (λ _. lent.new ≡ lent.old) }
{
    match outcome {
        Ok(given) => {
            *lent = given;
            number(Ok(0))
        }
        Err(refusal) => number(Err(refusal)),
    }
}
