// The store: words 0, 1, 2 offices, own office and plots; 3..11 the held set; 11..19 the visible set; then 18 words for each id k from
// 19 + 18 * k on: plot, value, clock, deps.
ghost use Rattle.std.specs.Prelude.{◌≡◌, ◌+◌, ◌<◌, ◌≤◌, length};
ghost use Rattle.std.proofs.lemmas.List.Edits.{sets};
ghost use Rattle.causal.specs.Lists.{part};
ghost use Rattle.store.specs.Offices.{need, slot_at, entry_at, settings_ok};

use frame::entry::Entry;

// Offices 2 to 8, plots 1 to 64, the own office one of the ring.
#[tactic(auto, unfolding(crate::specs::Offices::settings_ok, causal::specs::Tests::both), using(std::proofs::lemmas::Bool::Decides::nat_tests))]
pub fn settings_ok(offices: u32, own: u32, plots: u32) -> bool
    ensures { result ≡ settings_ok offices own plots }
{
    frame::entry::ring_ok(offices, plots) && own < offices
}

// The words of a store.
pub fn need_of(offices: u32) -> usize
    ensures { result ≡ need offices }
{
    19 + 576 * offices as usize
}

// The eight words from `at` on. By `first_chunk` a test of the length would stay in the code at each use.
pub fn set_at(store: &[u32], at: usize) -> [u32; 8]
    requires { at + 8 ≤ length store.now }
    ensures { result ≡ part store.now at 8 }
{
    [
        store[at],
        store[at + 1],
        store[at + 2],
        store[at + 3],
        store[at + 4],
        store[at + 5],
        store[at + 6],
        store[at + 7],
    ]
}

// Plot, clock and deps of the entry in the slot of id k.
#[tactic(auto, unfolding(crate::specs::Offices::entry_at))]
pub fn plot_at(store: &[u32], k: usize) -> u32
    requires { slot_at k + 18 ≤ length store.now }
    ensures { result ≡ (entry_at store.now k).plot }
{
    store[19 + 18 * k]
}

#[tactic(auto, unfolding(crate::specs::Offices::entry_at))]
pub fn clock_at(store: &[u32], k: usize) -> [u32; 8]
    requires { slot_at k + 18 ≤ length store.now }
    ensures { result ≡ (entry_at store.now k).clock }
{
    set_at(store, 19 + 18 * k + 2)
}

#[tactic(auto, unfolding(crate::specs::Offices::entry_at))]
pub fn deps_at(store: &[u32], k: usize) -> [u32; 8]
    requires { slot_at k + 18 ≤ length store.now }
    ensures { result ≡ (entry_at store.now k).deps }
{
    set_at(store, 19 + 18 * k + 10)
}

// The entry itself.
#[tactic(auto, unfolding(crate::specs::Offices::entry_at))]
pub fn entry_at(store: &[u32], k: usize) -> Entry
    requires { (k < 256) × (slot_at k + 18 ≤ length store.now) }
    ensures { result ≡ entry_at store.now k }
{
    Entry {
        office: (k / 32) as u32,
        serial: (k % 32 + 1) as u32,
        plot: plot_at(store, k),
        value: store[19 + 18 * k + 1],
        clock: clock_at(store, k),
        deps: deps_at(store, k),
    }
}

// Stores eight words from `at` on.
#[tactic(auto, using(causal::proofs::Copies::stored))]
pub fn put(store: &mut [u32], at: usize, xs: [u32; 8])
    requires { at + 8 ≤ length store.old }
    ensures laid { store.new ≡ sets store.old at xs }
    ensures eight { length xs ≡ 8 }
{
    store[at..at + 8].copy_from_slice(&xs);
}
