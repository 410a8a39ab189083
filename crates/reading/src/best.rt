// What is handed back on a plot: the best of what is current there and the own writes. Readings of one plot and of several share it.
ghost use Rattle.std.specs.Prelude.{◌≡◌, length};
ghost use Rattle.store.specs.Current.{found_at, InSlots};
ghost use Rattle.store.specs.Offices.{best_own, better};

use frame::entry::{Entry, outranks};

// The entry at a place of the store.
#[inline(always)]
#[tactic(auto, unfolding(store::specs::Current::found_at))]
fn entry_in(store: &[u32], place: Option<usize>) -> Option<Entry>
    requires { InSlots (length store.now) place }
    ensures { result ≡ found_at store.now place }
{
    match place {
        None => None,
        Some(k) => Some(store::layout::entry_at(store, k)),
    }
}

// The better of an own write on the plot and the best so far, which stays where they tie.
#[tactic(auto, unfolding(store::specs::Offices::better))]
fn better(e: &Entry, best: Option<Entry>) -> Option<Entry>
    ensures { result ≡ better e.now best }
{
    match best {
        Some(b) if !outranks(e, &b) => best,
        _ => Some(*e),
    }
}

// The best of the own writes on the plot and what was found.
fn best_own(own: &[Entry], plot: u32, first: Option<Entry>) -> Option<Entry>
    ensures { result ≡ best_own plot first own.now }
{
    let mut best = first;
    for e in own {
        if e.plot == plot {
            best = better(e, best);
        }
    }
    best
}

// The same with what stands at a place of the store. Out of line: most sessions that read carry nothing, and no entry is copied for them.
#[inline(never)]
pub fn best_with(store: &[u32], own: &[Entry], plot: u32, place: Option<usize>) -> Option<Entry>
    requires { InSlots (length store.now) place }
    ensures { result ≡ best_own plot (found_at store.now place) own.now }
{
    best_own(own, plot, entry_in(store, place))
}

// The same, where own writes are looked at only if there are any.
#[inline(always)]
pub fn handed(store: &[u32], own: &[Entry], plot: u32, place: Option<usize>) -> Option<Entry>
    requires { InSlots (length store.now) place }
    ensures { result ≡ best_own plot (found_at store.now place) own.now }
{
    if own.is_empty() {
        return entry_in(store, place);
    }
    // Named, so that the call is lent a row of its own, and what is handed back above stays in registers.
    let best = best_with(store, own, plot, place);
    best
}
