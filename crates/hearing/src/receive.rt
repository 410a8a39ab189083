// The call receive (01: hear a frame).
ghost use Rattle.std.specs.Prelude.{◌≡◌, true, length, get_or};
ghost use Rattle.std.proofs.lemmas.List.Edits.{sets};
ghost use Rattle.causal.specs.Lists.{part, zeros};
ghost use Rattle.causal.specs.Sets.{IdSet, inserted, subset_of};
ghost use Rattle.frame.specs.Refusals.{code_of, reply_of};
ghost use Rattle.frame.specs.Frames.{frame_of, frame_ok, frame_words};
ghost use Rattle.store.specs.Offices.{office_of, sound_store, reveal};
ghost use Rattle.office.specs.Calls.{receive_code, receive_on, stored};
ghost use Rattle.office.specs.Promises.{ReceivePromise};

use frame::entry::{Frame, id_of};
use frame::refusal::Refusal;

// 10 and 11; 12: a dependency is not held; 8: it must go on and there is no room for it. `words`: how many the frame has, as it came and as it goes on.
pub fn may_take(
    store: &[u32],
    held: [u32; 8],
    f: &Frame,
    words: usize,
    room: usize,
) -> Result<(), Refusal>
    requires { (sound_store store.now ≡ true) × (held ≡ part store.now 3 8) × (frame_ok (get_or store.now 0 0) (get_or store.now 2 0) f.now ≡ true) × (words ≡ length (frame_words f.now)) }
    ensures { code_of result ≡ receive_code (office_of store.now) f.now room }
{
    office::entries::comes_in(store, held, &f.entry)?;
    if !causal::set::subset(f.entry.deps, held) {
        return Err(Refusal::Missing);
    }
    if f.hops != 0 && words > room {
        return Err(Refusal::Room);
    }
    Ok(())
}

// Reveals an id that is held.
fn reveal_id(store: &mut [u32], k: usize)
    requires { (sound_store store.old ≡ true) × (subset_of (inserted zeros k) (part store.old 3 8) ≡ true) }
    ensures { store.new ≡ sets store.old 11 (reveal (office_of store.old) (inserted zeros k)).visible }
{
    let seeds = causal::set::insert([0; 8], k);
    let visible = store::reveal::revealed_by(store, seeds).visible;
    store::reveal::show(store, visible);
}

// A frame for this ring comes in, f, which was read from `frame`: held, hidden, if new; then revealed where none are still to hear, else sent on.
fn taken(store: &mut [u32], frame: &[u32], f: &Frame, out: &mut [u32]) -> Result<usize, Refusal>
    requires { (sound_store store.old ≡ true) × (frame_ok (get_or store.old 0 0) (get_or store.old 2 0) f.now ≡ true) × (length f.now.entry.clock ≡ 8) × IdSet f.now.entry.deps × (f.now ≡ frame_of frame.now) × (frame.now ≡ frame_words f.now) }
    ensures { (reply_of result ≡ record { code = (receive_on (office_of store.old) f.now out.old).code; words = (receive_on (office_of store.old) f.now out.old).count })
        × (store.new ≡ stored (receive_on (office_of store.old) f.now out.old).code store.old (receive_on (office_of store.old) f.now out.old).store)
        × (out.new ≡ (receive_on (office_of store.old) f.now out.old).row) }
{
    let held = store::layout::set_at(store, 3);
    may_take(store, held, f, frame.len(), out.len())?;
    office::entries::hold_new(&mut *store, held, &f.entry);
    if f.hops == 0 {
        reveal_id(store, id_of(&f.entry));
        return Ok(0);
    }
    crate::forward::put_onward(frame, out);
    Ok(frame.len())
}

// 01: hear a frame. A sound store has settings in range, so they are not asked again.
pub fn receive(store: &mut [u32], frame: &[u32], out: &mut [u32]) -> Result<usize, Refusal>
    ensures { ReceivePromise store.old frame.now out.old (reply_of result) store.new out.new }
{
    if !store::sound::is_sound(store) {
        return Err(Refusal::Store);
    }
    let f = frame::reader::frame_from(frame, store[0], store[2]).ok_or(Refusal::Format)?;
    taken(store, frame, &f, out)
}
