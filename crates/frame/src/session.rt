// Sessions (01: errands).
ghost use Rattle.std.specs.Prelude.{◌≡◌, ℕ, ◌+◌, ◌-◌, ◌*◌, ◌<◌, ◌≤◌, true, not, List, ◌==◌, slice_index, slice_index_or};
ghost use Rattle.causal.specs.Tests.{both};
ghost use Rattle.causal.specs.Sets.{is_in, unite, subset_of};
ghost use Rattle.causal.specs.Lists.{tab, zeros};
ghost use Rattle.frame.specs.Entries.{clock_ok, under_ok, ids_ok};
ghost use Rattle.frame.specs.Sessions.{nobody, content_of, session_of, ids_of, own_turn, own_ok, head_ok, session_ok, fresh_content};

use crate::entry::Entry;

#[repr(C)]
#[derive(Clone, Copy)]
pub struct Session {
    pub offices: u32,
    pub clock: [u32; 8],
    pub read: [u32; 8],
    pub count: usize,
    pub own: [Entry; 16], // the first `count` are its own writes, in order; the rest means nothing
}

// The own writes of a session, in order.
pub fn own_writes(s: &Session) -> &[Entry]
    requires { s.now.count ≤ 16 }
    ensures { result.now ≡ (content_of s.now).own }
{
    &s.own[..s.count]
}

// What stands where there is no session: all zeros.
pub fn blank_session() -> Session
    ensures { result ≡ session_of (fresh_content 0) }
{
    Session {
        offices: 0,
        clock: [0; 8],
        read: [0; 8],
        count: 0,
        own: [crate::entry::blank_entry(); 16],
    }
}

// The tests of an own write that ask its clock and dependencies: its own number, not on itself, an id that is not among the earlier ones; then at
// once no number over its bound and no dependency but on what was read or written before.
#[tactic(auto, using(crate::proofs::Words::in_serial, causal::proofs::Sets::empty_unite, causal::proofs::Sets::subset_left), unfolding(causal::specs::Tests::both))]
fn own_past_ok(
    most: [u32; 8],
    office: usize,
    serial: u32,
    clock: [u32; 8],
    deps: [u32; 8],
    read: [u32; 8],
    seen: [u32; 8],
) -> bool
    requires { (office < 8) × (1 ≤ serial) × (serial ≤ 32) }
    ensures { result ≡ both (slice_index clock office == serial) (both (not (is_in deps (32 * office + (serial - 1)))) (both (not (is_in seen (32 * office + (serial - 1)))) (both (under_ok most clock) (subset_of deps (unite read seen))))) }
{
    clock[office] == serial
        && !crate::entry::in_word(deps[office], serial)
        && !crate::entry::in_word(seen[office], serial)
        && {
            let over = crate::entry::overs(most, clock);
            let unknown = causal::set::without(deps, causal::set::union(read, seen));
            let bad = causal::set::union(over, unknown);
            causal::set::is_empty(bad)
        }
}

// One own write: the entry rules, an id that is not among the earlier ones, and no dependency but on what was read or written before. All of
// that is of offices that the ring has, so its dependencies are, too.
#[tactic(auto, using(crate::proofs::Entries::bounds_facts))]
fn own_ok(n: u32, p: u32, most: [u32; 8], read: [u32; 8], seen: [u32; 8], e: &Entry) -> bool
    requires { ((c : List ℕ) → under_ok most c ≡ clock_ok n c) × (ids_ok n read ≡ true) × (ids_ok n seen ≡ true) }
    ensures { result ≡ own_turn n p read seen e.now }
{
    // No clock has a number for a ninth office.
    crate::entry::bounds_ok(n, p, e)
        && e.office < 8
        && own_past_ok(
            most,
            e.office as usize,
            e.serial,
            e.clock,
            e.deps,
            read,
            seen,
        )
}

// The own writes, with the set of the ids seen so far.
#[tactic(auto, using(crate::proofs::OwnTurns::asked_on, crate::proofs::OwnTurns::asked_out, crate::proofs::OwnTurns::asked_all, crate::proofs::OwnTurns::ids_kept, crate::proofs::OwnTurns::none_seen))]
pub fn owns_ok(n: u32, p: u32, read: [u32; 8], own: &[Entry]) -> bool
    requires { ids_ok n read ≡ true }
    ensures { result ≡ own_ok n p read zeros own.now }
{
    let most = crate::entry::mosts(n as usize);
    let mut seen = [0u32; 8];
    for e in own {
        if !own_ok(n, p, most, read, seen, e) {
            return false;
        }
        let more = causal::set::insert(seen, crate::entry::id_of(e));
        seen = more;
    }
    true
}

// All of a session but its own writes: the ring size, how many it carries, clock and read ids.
#[tactic(auto, unfolding(crate::specs::Sessions::head_ok, causal::specs::Tests::both))]
#[inline(always)]
fn head_ok(s: &Session, n: u32) -> bool
    ensures { result ≡ head_ok n s.now.offices s.now.count s.now.clock s.now.read }
{
    s.offices == n
        && s.count <= 16
        && crate::entry::clock_ok(n as usize, s.clock)
        && crate::entry::ids_ok(n as usize, s.read)
}

// 01: is a session sound for a ring of so many offices, with so many plots?
#[tactic(auto, using(crate::proofs::OwnTurns::session_split, crate::proofs::OwnTurns::head_few, crate::proofs::OwnTurns::head_ids), unfolding(causal::specs::Tests::both))]
#[inline(always)]
pub fn session_ok(s: &Session, offices: u32, plots: u32) -> bool
    ensures { result ≡ session_ok offices plots (content_of s.now) }
{
    // Most carry nothing: there the own writes are not asked.
    head_ok(s, offices) && (s.count == 0 || owns_ok(offices, plots, s.read, own_writes(s)))
}

// The ids of entries.
#[tactic(auto, unfolding(crate::specs::Sessions::ids_of))]
pub fn ids_of(own: &[Entry]) -> [u32; 8]
    ensures { result ≡ ids_of own.now }
{
    let mut ids = [0u32; 8];
    // No `fold`: its proof does not close (tried fold_from_yields_List three ways).
    for e in own {
        let more = causal::set::insert(ids, crate::entry::id_of(e));
        ids = more;
    }
    ids
}
