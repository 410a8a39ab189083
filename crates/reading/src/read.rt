// To read one plot.
ghost use Rattle.std.specs.Prelude.{◌≡◌};
ghost use Rattle.frame.specs.Refusals.{code_of};
ghost use Rattle.frame.specs.Sessions.{content_of};
ghost use Rattle.reading.specs.Readings.{read_refusal};
ghost use Rattle.reading.specs.Answers.{found_by, entry_by, session_by, seen_found, seen_entry, seen_session};
ghost use Rattle.office.specs.Promises.{ReadPromise};

use crate::best::handed;
use frame::entry::Entry;
use frame::refusal::Refusal;
use frame::session::{Session, own_writes};
use office::note::{Seen, note, set_seen};

// What a reading of one plot hands back, and the session with what it has seen then.
#[derive(Clone, Copy)]
pub struct PlotRead {
    pub entry: Option<Entry>,
    pub session: Session,
}

// What a reading of one plot hands back, and what the session has seen then.
#[derive(Clone, Copy)]
pub struct PlotSeen {
    pub entry: Option<Entry>,
    pub seen: Seen,
}

// 4: plot out of range. 12: a read id not held.
#[inline(always)]
fn may_read(store: &[u32], s: &Session, plot: u32) -> Result<(), Refusal>
    ensures { code_of result ≡ read_refusal store.now (content_of s.now) plot }
{
    office::code::start(store, s)?;
    if plot >= store[2] {
        return Err(Refusal::Plot);
    }
    if !office::code::held_all(store, s.read) {
        return Err(Refusal::Missing);
    }
    Ok(())
}

// read_plot, but for the parts of the session that a reading leaves as they were.
#[inline(always)]
pub fn see_plot(store: &mut [u32], s: &Session, plot: u32) -> Result<PlotSeen, Refusal>
    ensures { ReadPromise store.old s.now plot (code_of result) (seen_found result) (seen_entry result) (seen_session s.now result) store.new }
{
    may_read(store, s, plot)?;
    let visible = crate::shown::shown_by(store, s.read);
    let place = store::current::current(store, visible, plot);
    let before = Seen {
        clock: s.clock,
        read: s.read,
    };
    let seen = PlotSeen {
        entry: handed(store, own_writes(s), plot, place),
        seen: note(store, place, before),
    };
    store::reveal::show(store, visible);
    Ok(seen)
}

// 01: read one plot.
#[inline(always)]
pub fn read_plot(store: &mut [u32], s: Session, plot: u32) -> Result<PlotRead, Refusal>
    ensures { ReadPromise store.old s plot (code_of result) (found_by result) (entry_by result) (session_by s result) store.new }
{
    let PlotSeen { entry, seen } = see_plot(store, &s, plot)?;
    let mut session = s;
    set_seen(&mut session, seen);
    Ok(PlotRead { entry, session })
}
