// Is an entry held with the same content?
ghost use Rattle.std.specs.Prelude.{◌≡◌, ◌+◌, ◌≤◌, length};
ghost use Rattle.causal.specs.Lists.{part, eq_words};
ghost use Rattle.frame.specs.Entries.{id_of, same_content};
ghost use Rattle.store.specs.Offices.{slot_at, entry_at};

use frame::entry::Entry;

// Has the slot of e's id the content of e?
#[tactic(auto, unfolding(frame::specs::Entries::same_content, crate::specs::Offices::entry_at, causal::specs::Tests::both), using(std::proofs::lemmas::Bool::Decides::nat_tests, crate::proofs::Eights::part_words))]
pub fn has_content(store: &[u32], e: &Entry) -> bool
    requires { slot_at (id_of e.now) + 18 ≤ length store.now }
    ensures { result ≡ same_content e.now (entry_at store.now (id_of e.now)) }
{
    let at = 19 + 18 * frame::entry::id_of(e);
    e.plot == store[at]
        && e.value == store[at + 1]
        && e.clock[..] == store[at + 2..at + 10]
        && e.deps[..] == store[at + 10..at + 18]
}
