// The call that weaves two plans.
ghost use Rattle.gaplinte.specs.WeavingServed.{WeaveServed};

// Weaves two plans into the third record that is lent, which then has the woven tree: the lines of `a` get the even rounds, those
// of `b` the odd ones.
#[unsafe(no_mangle)]
pub extern "C" fn gaplinte_weave(a: &[u16; 1408], b: &[u16; 1408], woven: &mut [u16; 1408]) -> i64
    ensures { WeaveServed a.now b.now woven.old woven.new result }
{
    gaplinte::weave::gaplinte_weave(a, b, woven)
}
