// The call that tells what an open would do.
ghost use Rattle.gaplinte.specs.Served.{TrialServed};

// A trial: three numbers are written, or none where the call is refused. A period of any size is checked whole.
#[unsafe(no_mangle)]
pub extern "C" fn gaplinte_trial(
    rows: &[u16; 1408],
    line: u64,
    period: u64,
    tried: &mut [u16; 3],
) -> i64
    ensures { TrialServed rows.now line period tried.old tried.new result }
{
    gaplinte::trial::gaplinte_trial(rows, line, period, tried)
}
