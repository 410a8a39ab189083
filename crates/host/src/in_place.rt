// The readings and the writing of an office for a host that lends the session: it comes as `s` and is left as the call leaves it.
ghost use Rattle.std.specs.Prelude.{◌≡◌, ◌≤◌};
ghost use Rattle.frame.specs.Refusals.{code_of};
ghost use Rattle.lent.specs.Answers.{entry_by, found_by};
ghost use Rattle.office.specs.Promises.{JointPromise, ReadPromise, WritePromise};
ghost use Rattle.host.specs.Flags.{is_set};

use crate::answer::WordsAnswer;
use frame::entry::{Entry, blank_entry};
use frame::refusal::{Refusal, code_of};
use frame::session::Session;

// What a reading of one plot answers, without the session.
#[repr(C)]
#[derive(Clone, Copy)]
pub struct PlotFound {
    pub refusal: u32,
    pub found: u32,
    pub entry: Entry,
}

impl From<Result<Option<Entry>, Refusal>> for PlotFound {
    ghost from_gives = { λ read a. (a.found ≤ 1) × (a.refusal ≡ code_of read) × (is_set a.found ≡ found_by read) × (a.entry ≡ entry_by read) };

    fn from(read: Result<Option<Entry>, Refusal>) -> PlotFound {
        let refusal = code_of(&read);
        let entry = read.unwrap_or(None);
        PlotFound {
            refusal,
            found: u32::from(entry.is_some()),
            entry: entry.unwrap_or(blank_entry()),
        }
    }
}

// 01: read one plot.
#[inline(always)]
pub fn burial_lent_read_plot(store: &mut [u32], s: &mut Session, plot: u32) -> PlotFound
    ensures { (result.found ≤ 1) × ReadPromise store.old s.old plot result.refusal (is_set result.found) result.entry s.new store.new }
{
    lent::calls::read_plot(store, s, plot).into()
}

// 01: read jointly.
#[inline(always)]
pub fn burial_lent_read_joint(
    store: &mut [u32],
    s: &mut Session,
    plots: &[u32],
    answer: &mut [u32],
) -> u32
    ensures { JointPromise store.old s.old plots.now answer.old result s.new store.new answer.new }
{
    code_of(&lent::calls::read_joint(store, s, plots, answer))
}

// 01: write.
#[inline(always)]
pub fn burial_lent_write(
    store: &mut [u32],
    s: &mut Session,
    plot: u32,
    value: u32,
    out: &mut [u32],
) -> WordsAnswer
    ensures { WritePromise store.old s.old plot value out.old (record { code = result.refusal; words = result.words }) s.new store.new out.new }
{
    lent::calls::write(store, s, plot, value, out).into()
}
