// To hold an entry, hidden: its words into its slot, its id into the held set.
ghost use Rattle.std.specs.Prelude.{◌≡◌, ◌+◌, ◌≤◌, length};
ghost use Rattle.std.proofs.lemmas.List.Edits.{sets};
ghost use Rattle.frame.specs.Entries.{id_of};
ghost use Rattle.store.specs.Offices.{slot_at, entry_words};
ghost use Rattle.store.specs.Slots.{hold_words};

use crate::layout;
use frame::entry::Entry;

// The words of an entry, from `at` on.
fn put_entry(store: &mut [u32], at: usize, e: &Entry)
    requires { at + 18 ≤ length store.old }
    ensures laid { store.new ≡ sets store.old at (entry_words e.now) }
    ensures eighteen { length (entry_words e.now) ≡ 18 }
{
    store[at] = e.plot;
    store[at + 1] = e.value;
    layout::put(&mut *store, at + 2, e.clock);
    layout::put(&mut *store, at + 10, e.deps);
}

// One more held entry. Nothing else changes.
pub fn hold(store: &mut [u32], e: &Entry)
    requires { slot_at (id_of e.now) + 18 ≤ length store.old }
    ensures { store.new ≡ hold_words store.old e.now }
{
    let k = frame::entry::id_of(e);
    let held = layout::set_at(&store[..], 3);
    let more = causal::set::insert(held, k);
    put_entry(&mut *store, 19 + 18 * k, e);
    layout::put(&mut *store, 3, more);
}
