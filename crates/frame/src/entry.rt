// Entries, frames that carry them round the ring, and the rules they keep.
ghost use Rattle.std.specs.Prelude.{◌≡◌, ℕ, ◌+◌, ◌-◌, ◌*◌, ◌<◌, ◌≤◌, not, ltb, List, if◌then◌else◌, ◌==◌, nat_le, nat_lt, slice_index};
ghost use Rattle.causal.specs.Tests.{both, either};
ghost use Rattle.causal.specs.Sets.{bit, is_empty, is_in};
ghost use Rattle.frame.specs.Entries.{id_of, clock_ok, under_ok, ids_ok, bounds_ok, entry_ok, outranks as outranksOf, same_content, blank_entry};
ghost use Rattle.frame.specs.Frames.{ring_ok, frame_ok, blank_frame};

#[repr(C)]
#[derive(Clone, Copy, Debug, PartialEq, Eq)]
pub struct Entry {
    pub office: u32,
    pub serial: u32,
    pub plot: u32,
    pub value: u32,
    pub clock: [u32; 8],
    pub deps: [u32; 8],
}

#[repr(C)]
#[derive(Clone, Copy, Debug, PartialEq, Eq)]
pub struct Frame {
    pub offices: u32,
    pub hops: u32, // 01: offices still to hear after the receiver
    pub entry: Entry,
}

// The settings of a ring: 2 to 8 offices, 1 to 64 plots.
#[tactic(auto, unfolding(crate::specs::Frames::ring_ok, causal::specs::Tests::both))]
pub fn ring_ok(offices: u32, plots: u32) -> bool
    ensures { result ≡ ring_ok offices plots }
{
    2 <= offices && offices <= 8 && 1 <= plots && plots <= 64
}

// The greatest numbers that a clock may have, place by place.
pub fn mosts(n: usize) -> [u32; 8]
    ensures { (clock : List ℕ) → under_ok result clock ≡ clock_ok n clock }
{
    std::array::from_fn(|j| if j < n { 32 } else { 0 })
}

// 0 where x is not over a bound; else all bits, as a comparison of eight places at once leaves them.
#[tactic(auto, using(std::proofs::lemmas::Bool::Decides::nat_tests))]
fn over(x: u32, most: u32) -> u32
    ensures { (result == 0) ≡ nat_le x most }
{
    if x > most { 0xFFFF_FFFF } else { 0 }
}

// What is over its bound, place by place. Bounds in a row of their own, so that all places are compared at once.
pub fn overs(most: [u32; 8], clock: [u32; 8]) -> [u32; 8]
    ensures { is_empty result ≡ under_ok most clock }
{
    std::array::from_fn(|j| over(clock[j], most[j]))
}

// Numbers of 0 to 32, and zero for offices that the ring has not.
pub fn clock_ok(n: usize, clock: [u32; 8]) -> bool
    ensures { result ≡ clock_ok n clock }
{
    let most = mosts(n);
    let left = overs(most, clock);
    causal::set::is_empty(left)
}

// What word j of a set has of an office that the ring has not.
#[tactic(auto, using(std::proofs::lemmas::Bool::Decides::nat_tests), unfolding(causal::specs::Tests::either))]
fn beyond(n: usize, w: u32, j: usize) -> u32
    ensures { (result == 0) ≡ either (nat_lt j n) (w == 0) }
{
    w & if j < n { 0 } else { 0xFFFF_FFFF }
}

// No id of an office that the ring has not. All words at once.
pub fn ids_ok(n: usize, ids: [u32; 8]) -> bool
    ensures { result ≡ ids_ok n ids }
{
    let left = std::array::from_fn(|j| beyond(n, ids[j], j));
    causal::set::is_empty(left)
}

// The bounds of the numbers.
#[tactic(auto, unfolding(crate::specs::Entries::bounds_ok, causal::specs::Tests::both))]
pub fn bounds_ok(n: u32, p: u32, e: &Entry) -> bool
    ensures { result ≡ bounds_ok n p e.now.office e.now.serial e.now.plot e.now.value }
{
    e.office < n && 1 <= e.serial && e.serial <= 32 && e.plot < p && e.value < 0x1000_0000
}

// Is the entry of this serial in its office's word of a set?
pub fn in_word(w: u32, serial: u32) -> bool
    requires { (1 ≤ serial) × (serial ≤ 32) }
    ensures { result ≡ (bit w (serial - 1) == 1) }
{
    (w >> (serial - 1)) % 2 == 1
}

// The rules of clock and dependencies.
#[tactic(auto, using(crate::proofs::Words::in_serial), unfolding(causal::specs::Tests::both))]
fn past_ok(n: usize, office: usize, serial: u32, clock: [u32; 8], deps: [u32; 8]) -> bool
    requires { (office < 8) × (1 ≤ serial) × (serial ≤ 32) }
    ensures { result ≡ both (slice_index clock office == serial) (both (not (is_in deps (32 * office + (serial - 1)))) (both (clock_ok n clock) (ids_ok n deps))) }
{
    clock[office] == serial
        && !in_word(deps[office], serial)
        && clock_ok(n, clock)
        && ids_ok(n, deps)
}

// The entry rules.
#[tactic(auto, using(crate::proofs::Entries::far_entry, crate::proofs::Entries::bounds_facts), unfolding(crate::specs::Entries::entry_ok, causal::specs::Tests::both))]
pub fn entry_ok(n: u32, p: u32, e: &Entry) -> bool
    ensures { result ≡ entry_ok n p e.now }
{
    // No clock has a number for a ninth office.
    bounds_ok(n, p, e)
        && e.office < 8
        && past_ok(n as usize, e.office as usize, e.serial, e.clock, e.deps)
}

// What a frame may say.
#[tactic(auto, unfolding(crate::specs::Frames::frame_ok, causal::specs::Tests::both))]
pub fn frame_ok(n: u32, p: u32, f: &Frame) -> bool
    ensures { result ≡ frame_ok n p f.now }
{
    f.offices == n && 2 <= n && n <= 8 && f.hops <= n - 2 && entry_ok(n, p, &f.entry)
}

// The id of an entry: 32 to an office.
pub fn id_of(e: &Entry) -> usize
    ensures { result ≡ id_of e.now }
{
    32 * e.office as usize + e.serial.saturating_sub(1) as usize
}

// Have two entries the same content?
#[tactic(auto, using(causal::proofs::Equal::equal_words), unfolding(crate::specs::Entries::same_content, causal::specs::Tests::both))]
pub fn same_content(e: &Entry, f: &Entry) -> bool
    ensures { result ≡ same_content e.now f.now }
{
    e.plot == f.plot && e.value == f.value && e.clock == f.clock && e.deps == f.deps
}

// Does e outrank f?
pub fn outranks(e: &Entry, f: &Entry) -> bool
    ensures { result ≡ outranksOf e.now f.now }
{
    causal::rank::outranks(e.clock, e.office, f.clock, f.office)
}

// What stands where there is no frame.
pub fn blank_frame() -> Frame
    ensures { result ≡ blank_frame }
{
    Frame {
        offices: 0,
        hops: 0,
        entry: blank_entry(),
    }
}

// What stands where there is no entry.
pub fn blank_entry() -> Entry
    ensures { result ≡ blank_entry }
{
    Entry {
        office: 0,
        serial: 0,
        plot: 0,
        value: 0,
        clock: [0; 8],
        deps: [0; 8],
    }
}
