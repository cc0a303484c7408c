// The call that tells what an open would do.
ghost use Rattle.std.specs.Prelude.{◌≡◌};
ghost use Rattle.trials.specs.Answers.{trial_told};
ghost use Rattle.gaplinte.specs.Served.{tried_numbers, TrialServed};

use crate::answers;
use trials::Trial;

// The start, the number of nodes added, and 1 where a node would be split.
fn tried_numbers(trial: Trial) -> [u16; 3]
    ensures { result ≡ tried_numbers (trial_told trial) }
{
    [trial.start.0, trial.added, u16::from(trial.split)]
}

// A trial: three numbers are written, or none where the call is refused. A period of any size is checked whole.
pub fn gaplinte_trial(rows: &[u16; 1408], line: u64, period: u64, tried: &mut [u16; 3]) -> i64
    ensures { TrialServed rows.now line period tried.old tried.new result }
{
    let told = plan::trial::trial(rows, line, tree::period_asked(period));
    answers::write(tried, told.map(tried_numbers))
}
