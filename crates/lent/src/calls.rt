// To read and to write with the session lent: it comes as `s` and is left as the call leaves it. The rest is as where it is given by value.
ghost use Rattle.frame.specs.Refusals.{code_of, reply_of};
ghost use Rattle.lent.specs.Answers.{found_by, entry_by};
ghost use Rattle.office.specs.Promises.{JointPromise, ReadPromise, WritePromise};

use frame::entry::Entry;
use frame::refusal::Refusal;
use frame::session::Session;
use office::note::set_seen;

// 01: read one plot.
#[tactic(auto, unfolding(frame::specs::Refusals::code_of, reading::specs::Answers::handed_by, reading::specs::Answers::seen_session))]
#[inline(always)]
pub fn read_plot(store: &mut [u32], s: &mut Session, plot: u32) -> Result<Option<Entry>, Refusal>
    ensures { ReadPromise store.old s.old plot (code_of result) (found_by result) (entry_by result) s.new store.new }
{
    let read = reading::read::see_plot(store, s, plot)?;
    set_seen(s, read.seen);
    Ok(read.entry)
}

// 01: read jointly.
#[tactic(auto, unfolding(frame::specs::Refusals::code_of))]
#[inline(always)]
pub fn read_joint(
    store: &mut [u32],
    s: &mut Session,
    plots: &[u32],
    answer: &mut [u32],
) -> Result<(), Refusal>
    ensures { JointPromise store.old s.old plots.now answer.old (code_of result) s.new store.new answer.new }
{
    let seen = reading::joint::see_joint(store, s, plots, answer)?;
    set_seen(s, seen);
    Ok(())
}

// 01: write.
#[tactic(auto, unfolding(frame::specs::Refusals::reply_of, writing::specs::Answers::words_by, writing::specs::Answers::entry_by, office::specs::Answers::with_made))]
#[inline(always)]
pub fn write(
    store: &mut [u32],
    s: &mut Session,
    plot: u32,
    value: u32,
    out: &mut [u32],
) -> Result<usize, Refusal>
    ensures { WritePromise store.old s.old plot value out.old (reply_of result) s.new store.new out.new }
{
    let made = writing::write::make(store, s, plot, value, out)?;
    writing::write::extend(s, &made.entry);
    Ok(made.words)
}
