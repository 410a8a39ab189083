// The readings and the writing of an office for a host that lends the session: it comes as `s` and is left as the call leaves it.
ghost use Rattle.std.specs.Prelude.{◌≤◌};
ghost use Rattle.office.specs.Promises.{JointPromise, ReadPromise, WritePromise};
ghost use Rattle.host.specs.Flags.{is_set};

use frame::session::Session;
use host::answer::WordsAnswer;
use host::in_place::PlotFound;

// 01: read one plot.
#[unsafe(no_mangle)]
pub extern "C" fn burial_lent_read_plot(store: &mut [u32], s: &mut Session, plot: u32) -> PlotFound
    ensures { (result.found ≤ 1) × ReadPromise store.old s.old plot result.refusal (is_set result.found) result.entry s.new store.new }
{
    host::in_place::burial_lent_read_plot(store, s, plot)
}

// 01: read jointly.
#[unsafe(no_mangle)]
pub extern "C" fn burial_lent_read_joint(
    store: &mut [u32],
    s: &mut Session,
    plots: &[u32],
    answer: &mut [u32],
) -> u32
    ensures { JointPromise store.old s.old plots.now answer.old result s.new store.new answer.new }
{
    host::in_place::burial_lent_read_joint(store, s, plots, answer)
}

// 01: write.
#[unsafe(no_mangle)]
pub extern "C" fn burial_lent_write(
    store: &mut [u32],
    s: &mut Session,
    plot: u32,
    value: u32,
    out: &mut [u32],
) -> WordsAnswer
    ensures { WritePromise store.old s.old plot value out.old (record { code = result.refusal; words = result.words }) s.new store.new out.new }
{
    host::in_place::burial_lent_write(store, s, plot, value, out)
}
