// Is a store sound? Asked at every call: only held slots are looked at, their words where they stand.
ghost use Rattle.std.specs.Prelude.{◌≡◌, ◌+◌, ◌*◌, ◌<◌, ◌≤◌, true, length};
ghost use Rattle.causal.specs.Tests.{all_below};
ghost use Rattle.causal.specs.Sets.{subset_of};
ghost use Rattle.frame.specs.Entries.{clock_ok, under_ok};
ghost use Rattle.store.specs.Offices.{need, slot_at, office_of, sound_office, sound_store};
ghost use Rattle.store.specs.Slots.{Laid, no_gap, slot_ok};
ghost use Rattle.store.specs.Deps.{Looks, LooksAll, ids_fine, lone_ok};

use crate::bits::Bits;
use crate::layout;

// Are the bits of w that are set the lowest ones?
#[tactic(auto, using(crate::proofs::Gaps::no_gap_lem))]
fn no_gap(w: u32) -> bool
    ensures { result ≡ no_gap w }
{
    w & w.wrapping_add(1) == 0
}

// The rules that single words of a slot say: the slot of serial b + 1 of office i.
#[tactic(auto, unfolding(crate::specs::Deps::lone_ok, causal::specs::Sets::bit, causal::specs::Tests::both), using(std::proofs::lemmas::Bool::Decides::nat_tests))]
fn slot_ok(store: &[u32], p: u32, i: usize, b: usize) -> bool
    requires { (slot_at (32 * i + b) + 18 ≤ length store.now) × (i < 8) × (b < 32) }
    ensures { result ≡ lone_ok store.now p i b }
{
    let at = 19 + 18 * (32 * i + b);
    store[at] < p
        && store[at + 1] < 0x1000_0000
        && store[at + 2 + i] as usize == b + 1
        && (store[at + 10 + i] >> b) % 2 == 0
}

// What the slots of some ids say that keep the rules of single words: what is wrong with their clocks, and their deps, each of all
// together, to be asked once.
#[derive(Clone, Copy)]
struct Looked {
    bad: [u32; 8],
    deps: [u32; 8],
}

// Of the ids that word i of a set has, w, and those before; no clock may be over `most`. None where a slot breaks a rule of single words.
fn look(store: &[u32], most: [u32; 8], p: u32, i: usize, w: u32, before: Looked) -> Option<Looked>
    requires { (need i + 576 ≤ length store.now) × (i < 8) }
    ensures { Looks store.now (under_ok most) p i w before.bad before.deps result }
{
    let mut looked = before;
    for b in Bits(w) {
        if !slot_ok(store, p, i, b) {
            return None;
        }
        let k = 32 * i + b;
        let over = frame::entry::overs(most, layout::clock_at(store, k));
        looked = Looked {
            bad: causal::set::union(looked.bad, over),
            deps: causal::set::union(looked.deps, layout::deps_at(store, k)),
        };
    }
    Some(looked)
}

// Of all ids of a set that are of the ring.
fn look_all(store: &[u32], n: usize, p: u32, ids: [u32; 8]) -> Option<Looked>
    requires { (need n ≤ length store.now) × (n ≤ 8) }
    ensures { LooksAll store.now (clock_ok n) n p ids result }
{
    let most = frame::entry::mosts(n);
    let none = [0u32; 8];
    let mut looked = Looked {
        bad: none,
        deps: none,
    };
    for (i, &w) in ids[..n].iter().enumerate() {
        looked = look(store, most, p, i, w, looked)?;
    }
    Some(looked)
}

// Do the slots of a set of ids keep the rules, with their deps in another set?
fn ids_fine(store: &[u32], n: usize, p: u32, ids: [u32; 8], all: [u32; 8]) -> bool
    requires { (need n ≤ length store.now) × (n ≤ 8) }
    ensures { result ≡ ids_fine store.now n p ids all }
{
    match look_all(store, n, p, ids) {
        Some(looked) => causal::set::is_empty(looked.bad) && causal::set::subset(looked.deps, all),
        None => false,
    }
}

// All held slots: ids of the ring, the rules of each, deps of visible ones visible, deps of hidden ones held. So deps of visible ones are
// held too, and deps are ids of the ring.
fn slots_ok(store: &[u32], n: u32, p: u32, held: [u32; 8], visible: [u32; 8]) -> bool
    requires { (need n ≤ length store.now) × (n ≤ 8) × (subset_of visible held ≡ true) }
    ensures { result ≡ all_below 256 (slot_ok store.now n p held visible) }
{
    let ring = n as usize;
    frame::entry::ids_ok(ring, held)
        && ids_fine(store, ring, p, visible, visible)
        && ids_fine(store, ring, p, causal::set::without(held, visible), held)
}

// What is visible is held, the held slots keep the rules, and the own serials have no gap. Nothing held, nothing to ask.
fn content_ok(store: &[u32]) -> bool
    requires { Laid store.now }
    ensures { result ≡ sound_office (office_of store.now) }
{
    let held = layout::set_at(store, 3);
    let visible = layout::set_at(store, 11);
    if !causal::set::subset(visible, held) {
        return false;
    }
    causal::set::is_empty(held)
        || slots_ok(store, store[0], store[2], held, visible) && no_gap(held[store[1] as usize])
}

// Long enough, settings in range, and the content sound.
pub fn is_sound(store: &[u32]) -> bool
    ensures { result ≡ sound_store store.now }
{
    store.len() >= 19
        && layout::settings_ok(store[0], store[1], store[2])
        && store.len() >= layout::need_of(store[0])
        && content_ok(store)
}
