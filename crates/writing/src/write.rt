// The call write.
ghost use Rattle.std.specs.Prelude.{◌≡◌, true, ◌+◌, ◌<◌, ◌≤◌, length, get_or};
ghost use Rattle.causal.specs.Lists.{part};
ghost use Rattle.causal.specs.Codes.{check};
ghost use Rattle.frame.specs.Entries.{id_of};
ghost use Rattle.frame.specs.Refusals.{code_of, reply_of};
ghost use Rattle.frame.specs.Sessions.{SaneContent, content_of};
ghost use Rattle.store.specs.Offices.{slot_at, office_of, sound_store};
ghost use Rattle.store.specs.Slots.{Laid, hold_words};
ghost use Rattle.office.specs.Calls.{new_entry};
ghost use Rattle.office.specs.Answers.{extended_by};
ghost use Rattle.office.specs.Steps.{holds_in, Slots};
ghost use Rattle.office.specs.Promises.{MakePromise, WritePromise};
ghost use Rattle.writing.specs.Answers.{entry_by, session_by, words_by, wrote_by};
ghost use Rattle.writing.specs.Writes.{first_codes, second_codes, early_code};

use frame::entry::Entry;
use frame::refusal::Refusal;
use frame::session::{Session, ids_of, own_writes};

// How many words a write wrote, and the session that it leaves.
#[derive(Clone, Copy)]
pub struct Wrote {
    pub words: usize,
    pub session: Session,
}

// How many words a write wrote, and the entry that it made.
#[derive(Clone, Copy)]
pub struct Made {
    pub words: usize,
    pub entry: Entry,
}

// ---- refusals but for the room

// 2: store unsound; 3: session unsound for it; 4: plot out of range; 5: value too great.
fn may_start(store: &[u32], s: &Session, plot: u32, value: u32) -> Result<(), Refusal>
    ensures { code_of result ≡ check (sound_store store.now) 2 (first_codes (get_or store.now 0 0) (get_or store.now 2 0) (content_of s.now) plot value) }
{
    office::code::start(store, s)?;
    if plot >= store[2] {
        return Err(Refusal::Plot);
    }
    if value >= 0x1000_0000 {
        return Err(Refusal::Value);
    }
    Ok(())
}

// 7: the session carries 16; 6: the office has made 32; 12: a read id is not held.
fn may_go_on(store: &[u32], held: [u32; 8], s: &Session) -> Result<(), Refusal>
    requires { Laid store.now × (held ≡ part store.now 3 8) }
    ensures { code_of result ≡ second_codes (office_of store.now) s.now.count s.now.read }
{
    if s.count >= 16 {
        return Err(Refusal::SessionFull);
    }
    if store::clock::made(store) >= 32 {
        return Err(Refusal::OfficeFull);
    }
    if !causal::set::subset(s.read, held) {
        return Err(Refusal::Missing);
    }
    Ok(())
}

pub fn may_write(store: &[u32], s: &Session, plot: u32, value: u32) -> Result<(), Refusal>
    ensures { code_of result ≡ check (sound_store store.now) 2 (early_code (office_of store.now) (content_of s.now) plot value) }
{
    may_start(store, s, plot, value)?;
    let held = store::layout::set_at(store, 3);
    may_go_on(store, held, s)?;
    office::entries::all_come_in(store, held, own_writes(s))
}

// ---- what a write makes and leaves

// What the type of a session says of it: behind a reference, a proof does not know that. Nothing is done.
fn known(s: Session)
    ensures { s.count ≤ 16 → SaneContent (content_of s) }
{}

// From the clock, the read ids and the ids of own writes of a session.
fn entry_by(store: &[u32], s: &Session, plot: u32, value: u32) -> Entry
    requires { (sound_store store.now ≡ true) × (s.now.count ≤ 16) }
    ensures { result ≡ new_entry (office_of store.now) (content_of s.now) plot value }
{
    let office = store[1];
    let serial = store::clock::made(store) + 1;
    let mut clock = causal::clock::join(store::clock::office_clock(store), s.clock);
    clock[office as usize] = serial;
    Entry {
        office,
        serial,
        plot,
        value,
        clock,
        deps: causal::set::union(s.read, ids_of(own_writes(s))),
    }
}

// The own writes that are not held, then the new entry.
fn hold_all(store: &mut [u32], held: [u32; 8], own: &[Entry], e: &Entry)
    requires { Slots own.now (length store.old) × (slot_at (id_of e.now) + 18 ≤ length store.old) }
    ensures { store.new ≡ hold_words (holds_in held store.old own.now) e.now }
{
    office::entries::hold_own(&mut *store, held, own);
    store::hold::hold(store, e);
}

// The session with the new entry among its own writes.
pub fn extend(s: &mut Session, e: &Entry)
    requires { s.old.count < 16 }
    ensures { s.new ≡ extended_by s.old e.now }
{
    let clock = causal::clock::join(s.clock, e.clock);
    s.clock = clock;
    s.own[s.count] = *e;
    s.count += 1;
}

// write, but for the session: what a write changes of it is told by the entry that it made.
pub fn make(
    store: &mut [u32],
    s: &Session,
    plot: u32,
    value: u32,
    out: &mut [u32],
) -> Result<Made, Refusal>
    ensures { MakePromise store.old s.now plot value out.old (words_by result) (entry_by result) store.new out.new }
{
    may_write(store, s, plot, value)?;
    known(*s);
    let own = own_writes(s);
    let entry = entry_by(store, s, plot, value);
    let n = store[0];
    let held = store::layout::set_at(store, 3);
    if crate::send::all_words(held, n, own, &entry) > out.len() {
        return Err(Refusal::Room);
    }
    let words = crate::send::put_all(held, n, own, &entry, out);
    hold_all(store, held, own, &entry);
    Ok(Made { words, entry })
}

// 01: write.
#[inline(always)]
pub fn write(
    store: &mut [u32],
    s: Session,
    plot: u32,
    value: u32,
    out: &mut [u32],
) -> Result<Wrote, Refusal>
    ensures { WritePromise store.old s plot value out.old (reply_of (wrote_by result)) (session_by s result) store.new out.new }
{
    let Made { words, entry } = make(store, &s, plot, value, out)?;
    let mut session = s;
    extend(&mut session, &entry);
    Ok(Wrote { words, session })
}
