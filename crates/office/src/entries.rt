// Entries that come in, carried by a session or in a frame: their refusals, and to hold those that are new.
ghost use Rattle.std.specs.Prelude.{◌≡◌, ◌+◌, ◌≤◌, length, get_or};
ghost use Rattle.causal.specs.Lists.{part};
ghost use Rattle.causal.specs.Sets.{is_in};
ghost use Rattle.frame.specs.Entries.{id_of};
ghost use Rattle.frame.specs.Refusals.{code_of};
ghost use Rattle.store.specs.Offices.{slot_at, office_of};
ghost use Rattle.office.specs.Calls.{entry_code, own_code};
ghost use Rattle.office.specs.Steps.{hold_if, holds_in, Slots};

use frame::entry::{Entry, id_of};
use frame::refusal::Refusal;

// 10: it names this office and was not made here; 11: it is held with other content.
#[tactic(auto, unfolding(crate::specs::Calls::entry_code, store::specs::Offices::office_of, causal::specs::Codes::check, causal::specs::Tests::implies, frame::specs::Refusals::code_of, frame::specs::Refusals::number_of))]
pub fn comes_in(store: &[u32], held: [u32; 8], e: &Entry) -> Result<(), Refusal>
    requires { (held ≡ part store.now 3 8) × (slot_at (id_of e.now) + 18 ≤ length store.now) }
    ensures { code_of result ≡ entry_code (office_of store.now) e.now }
{
    if causal::set::contains(held, id_of(e)) {
        if !store::same::has_content(store, e) {
            return Err(Refusal::Different);
        }
    } else if e.office == store[1] {
        return Err(Refusal::Unmade);
    }
    Ok(())
}

// The same of the own writes, in order.
pub fn all_come_in(store: &[u32], held: [u32; 8], own: &[Entry]) -> Result<(), Refusal>
    requires { (held ≡ part store.now 3 8) × Slots own.now (length store.now) }
    ensures { code_of result ≡ own_code (office_of store.now) own.now }
{
    for e in own {
        comes_in(store, held, e)?;
    }
    Ok(())
}

// Holds e, hidden, if the set does not have it.
pub fn hold_new(store: &mut [u32], held: [u32; 8], e: &Entry)
    requires { slot_at (id_of e.now) + 18 ≤ length store.old }
    ensures { store.new ≡ hold_if (is_in held (id_of e.now)) store.old e.now }
{
    if !causal::set::contains(held, id_of(e)) {
        store::hold::hold(store, e);
    }
}

// The same for the own writes, in order.
pub fn hold_own(store: &mut [u32], held: [u32; 8], own: &[Entry])
    requires { Slots own.now (length store.old) }
    ensures { store.new ≡ holds_in held store.old own.now }
{
    for e in own {
        hold_new(&mut *store, held, e);
    }
}
