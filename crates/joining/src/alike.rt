// Has one name two contents?
ghost use Rattle.std.specs.Prelude.{true, ◌≡◌, ◌<◌, ◌≤◌, eqb, get_or, length, take};
ghost use mathlib.Core.List.{Memᴰ};
ghost use Rattle.causal.specs.Sets.{is_in};
ghost use Rattle.causal.specs.Tests.{all_below, both};
ghost use Rattle.frame.specs.Entries.{id_of, same_content};
ghost use Rattle.frame.specs.Sessions.{ids_of, nobody};
ghost use Rattle.frame.specs.declared.entry.Entry.{Entry};
ghost use Rattle.joining.specs.Joins.{alike as alikeOf, all_alike, each};

use frame::entry::{Entry, id_of, same_content};

// Have two entries of one name one content?
#[tactic(auto, unfolding(crate::specs::Joins::alike, causal::specs::Tests::implies), using(std::proofs::lemmas::Bool::Decides::nat_tests))]
fn alike(e: &Entry, f: &Entry) -> bool
    ensures { result ≡ alikeOf e.now f.now }
{
    id_of(e) != id_of(f) || same_content(e, f)
}

// Have two entries one name and one content?
#[tactic(auto, unfolding(causal::specs::Tests::both), using(std::proofs::lemmas::Bool::Decides::nat_tests))]
fn same_entry(e: &Entry, f: &Entry) -> bool
    ensures { result ≡ both (eqb (id_of e.now) (id_of f.now)) (same_content e.now f.now) }
{
    id_of(e) == id_of(f) && same_content(e, f)
}

// For how many places do the two begin with the same entries? Copies of one session do, and nothing more is asked of those.
pub fn same_front(first: &[Entry], second: &[Entry]) -> usize
    ensures { (result ≤ length first.now) × (result ≤ length second.now) × (all_below result (λ j. both (eqb (id_of (get_or second.now j nobody)) (id_of (get_or first.now j nobody))) (same_content (get_or second.now j nobody) (get_or first.now j nobody))) ≡ true) }
{
    second
        .iter()
        .zip(first)
        .take_while(|(e, f)| same_entry(e, f))
        .count()
}

// Is the id of e in the set?
pub fn among(e: &Entry, ids: [u32; 8]) -> bool
    ensures { result ≡ is_in ids (id_of e.now) }
{
    causal::set::contains(ids, id_of(e))
}

// Has none of own the name of e and other content? `ids` are those of own: an entry whose id is not among them is compared with none.
fn alike_each(e: &Entry, ids: [u32; 8], own: &[Entry]) -> bool
    requires { ((f : Entry) → Memᴰ f own.now → id_of f < 256) × (ids ≡ ids_of own.now) }
    ensures { result ≡ each (alikeOf e.now) own.now }
{
    !among(e, ids) || own.iter().all(|f| alike(e, f))
}

// Has each name that both carry one content? `ids` are those of the first; the front of the second is known to be alike.
pub fn all_alike(second: &[Entry], front: usize, ids: [u32; 8], first: &[Entry]) -> bool
    requires { (front ≤ length second.now) × ((f : Entry) → Memᴰ f first.now → id_of f < 256) × (ids ≡ ids_of first.now) × (all_alike (take front second.now) first.now ≡ true) }
    ensures { result ≡ all_alike second.now first.now }
{
    second[front..].iter().all(|e| alike_each(e, ids, first))
}
