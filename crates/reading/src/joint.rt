// To read several plots at once.
ghost use Rattle.std.specs.Prelude.{◌≡◌, true, ◌≤◌, leb, length};
ghost use Rattle.std.specs.Result.{result_unwrap_or};
ghost use Rattle.causal.specs.Tests.{both};
ghost use Rattle.causal.specs.Lists.{part};
ghost use Rattle.causal.specs.Sets.{subset_of};
ghost use Rattle.frame.specs.Sessions.{content_of};
ghost use Rattle.store.specs.Offices.{sound_store};
ghost use Rattle.office.specs.Calls.{plots_ok};
ghost use Rattle.office.specs.Decide.{seen_of, with_seen};
ghost use Rattle.reading.specs.Readings.{joint_refusal, AllInSlots, PlacesTo, found_among, seen_to};
ghost use Rattle.office.specs.Promises.{JointPromise};
ghost use Rattle.frame.specs.Refusals.{code_of};

use frame::refusal::Refusal;
use frame::session::{Session, own_writes};
use office::note::{Seen, note};

// Up to 16 plots, each in range.
fn plots_ok(plots: &[u32], p: u32) -> bool
    ensures { result ≡ both (leb (length plots.now) 16) (plots_ok p plots.now) }
{
    plots.len() <= 16 && plots.iter().all(|&plot| plot < p)
}

// 4: too many plots, or one out of range. 8: answer too short. 12: a read id not held.
#[inline(always)]
fn may_read(store: &[u32], s: &Session, plots: &[u32], room: usize) -> Result<(), Refusal>
    ensures { code_of result ≡ joint_refusal store.now (content_of s.now) plots.now room }
{
    office::code::start(store, s)?;
    if !plots_ok(plots, store[2]) {
        return Err(Refusal::Plot);
    }
    if room < 3 * plots.len() {
        return Err(Refusal::Room);
    }
    if !office::code::held_all(store, s.read) {
        return Err(Refusal::Missing);
    }
    Ok(())
}

// What is current on each plot, into a row that is long enough.
fn places_of(store: &[u32], visible: [u32; 8], plots: &[u32], places: &mut [Option<usize>])
    requires { (sound_store store.now ≡ true) × (subset_of visible (part store.now 3 8) ≡ true) × (length plots.now ≤ length places.old) }
    ensures found { PlacesTo store.now visible plots.now (length plots.now) places.new }
    ensures long { length places.new ≡ length places.old }
{
    for (i, plot) in plots.iter().enumerate() {
        places[i] = store::current::current(store, visible, *plot);
    }
}

// What is seen once what is current on each plot is noted.
fn note_all(store: &[u32], places: &[Option<usize>], first: Seen) -> Seen
    requires { AllInSlots (length store.now) places.now }
    ensures { result ≡ seen_to (found_among store.now places.now) (length places.now) first }
{
    let mut seen = first;
    for place in places {
        seen = note(store, *place, seen);
    }
    seen
}

// read_joint, but for the parts of the session that a reading leaves as they were.
pub fn see_joint(
    store: &mut [u32],
    s: &Session,
    plots: &[u32],
    answer: &mut [u32],
) -> Result<Seen, Refusal>
    ensures { JointPromise store.old s.now plots.now answer.old (code_of result) (with_seen s.now (result_unwrap_or result (seen_of s.now))) store.new answer.new }
{
    may_read(store, s, plots, answer.len())?;
    let visible = crate::shown::shown_by(store, s.read);
    let mut places = [None; 16];
    places_of(store, visible, plots, &mut places);
    let places = &places[..plots.len()];
    crate::answer::put_answers(store, own_writes(s), plots, places, answer);
    let before = Seen {
        clock: s.clock,
        read: s.read,
    };
    let seen = note_all(store, places, before);
    store::reveal::show(store, visible);
    Ok(seen)
}

// 01: read jointly.
#[inline(always)]
pub fn read_joint(
    store: &mut [u32],
    s: Session,
    plots: &[u32],
    answer: &mut [u32],
) -> Result<Session, Refusal>
    ensures { JointPromise store.old s plots.now answer.old (code_of result) (result_unwrap_or result s) store.new answer.new }
{
    let seen = see_joint(store, &s, plots, answer)?;
    let Seen { clock, read } = seen;
    let own = s.own;
    Ok(Session {
        offices: s.offices,
        clock,
        read,
        count: s.count,
        own,
    })
}
