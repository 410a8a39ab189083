// The current entry on a plot: of the visible ones the one that no other outranks.
ghost use Rattle.std.specs.Prelude.{◌≡◌, ◌+◌, ◌<◌, ◌≤◌, true, length};
ghost use Rattle.causal.specs.Lists.{part};
ghost use Rattle.causal.specs.Sets.{subset_of};
ghost use Rattle.frame.specs.Entries.{outranks};
ghost use Rattle.store.specs.Offices.{slot_at, entry_at, sound_store};
ghost use Rattle.store.specs.Current.{WordReaches, InSlots, weighed, place_in, current_at};

use crate::bits::Bits;
use crate::layout;

// Does the entry in slot j outrank that in slot k?
#[tactic(auto, unfolding(crate::specs::Offices::entry_at, frame::specs::Entries::outranks))]
fn ranks_above(store: &[u32], j: usize, k: usize) -> bool
    requires { (j < 256) × (k < 256) × (slot_at j + 18 ≤ length store.now) × (slot_at k + 18 ≤ length store.now) }
    ensures { result ≡ outranks (entry_at store.now j) (entry_at store.now k) }
{
    let c = layout::clock_at(store, j);
    let d = layout::clock_at(store, k);
    causal::rank::outranks(c, (j / 32) as u32, d, (k / 32) as u32)
}

// The better of id k, if it is on the plot, and the best so far.
#[tactic(auto, unfolding(crate::specs::Current::weighed, crate::specs::Current::better_at), using(std::proofs::lemmas::Bool::Decides::nat_tests))]
fn weigh(store: &[u32], plot: u32, k: usize, best: Option<usize>) -> Option<usize>
    requires { (k < 256) × (slot_at k + 18 ≤ length store.now) × InSlots (length store.now) best }
    ensures { result ≡ weighed store.now plot k best }
{
    if layout::plot_at(store, k) != plot {
        return best;
    }
    match best {
        None => Some(k),
        Some(b) => {
            if ranks_above(store, k, b) {
                return Some(k);
            }
            Some(b)
        }
    }
}

// w is word i of a set: the best of its ids and of what was found before.
fn best_in(store: &[u32], plot: u32, i: usize, w: u32, before: Option<usize>) -> Option<usize>
    requires { (i < 8) × WordReaches (length store.now) i w × InSlots (length store.now) before }
    ensures { result ≡ place_in store.now plot i w 32 before }
{
    let mut best = before;
    for b in Bits(w) {
        best = weigh(store, plot, 32 * i + b, best);
    }
    best
}

// The id of the current entry where the visible set is the one given.
#[tactic(auto, using(crate::proofs::Rules::numbers))]
pub fn current(store: &[u32], visible: [u32; 8], plot: u32) -> Option<usize>
    requires { (sound_store store.now ≡ true) × (subset_of visible (part store.now 3 8) ≡ true) }
    ensures { result ≡ current_at store.now visible plot }
{
    let n = store[0] as usize;
    let mut best = None;
    for (i, &w) in visible[..n].iter().enumerate() {
        best = best_in(store, plot, i, w, best);
    }
    best
}
