// The frames of a write: of the own writes that are not held, in order, then of the new entry.
ghost use Rattle.std.specs.Prelude.{◌≡◌, true, ◌+◌, ◌-◌, ◌≤◌, length};
ghost use Rattle.std.proofs.lemmas.List.Edits.{sets};
ghost use Rattle.causal.specs.Sets.{is_in};
ghost use Rattle.frame.specs.Entries.{id_of};
ghost use Rattle.frame.specs.Frames.{frame_ok, frame_words};
ghost use Rattle.frame.specs.Calls.{laid};
ghost use Rattle.writing.specs.Writes.{started as startedOf, frame_if, frames_in, all_frames, Framed};

use frame::entry::{Entry, Frame, id_of};
use frame::writer::{put_frame, words_of};

// The frame in which an entry starts its way: all offices but its own and the first receiver are still to hear it.
fn started(n: u32, e: &Entry) -> Frame
    requires { 2 ≤ n }
    ensures { result ≡ startedOf n e.now }
{
    Frame {
        offices: n,
        hops: n - 2,
        entry: *e,
    }
}

// ---- how many words

fn turn_words(held: [u32; 8], n: u32, e: &Entry) -> usize
    requires { (2 ≤ n) × (n ≤ 8) }
    ensures { result ≡ length (frame_if (is_in held (id_of e.now)) n e.now) }
{
    if causal::set::contains(held, id_of(e)) {
        return 0;
    }
    words_of(&started(n, e))
}

pub fn all_words(held: [u32; 8], n: u32, own: &[Entry], e: &Entry) -> usize
    requires { (length own.now ≤ 16) × (2 ≤ n) × (n ≤ 8) }
    ensures { result ≡ length (all_frames held n own.now e.now) }
{
    let mut words = 0;
    for own_write in own {
        words += turn_words(held, n, own_write);
    }
    words + words_of(&started(n, e))
}

// ---- the words

fn put_turn(held: [u32; 8], n: u32, e: &Entry, out: &mut [u32], at: usize) -> usize
    requires { (frame_ok n 64 (startedOf n e.now) ≡ true) × (at + length (frame_if (is_in held (id_of e.now)) n e.now) ≤ length out.old) }
    ensures { (result ≡ at + length (frame_if (is_in held (id_of e.now)) n e.now)) × (out.new ≡ sets out.old at (frame_if (is_in held (id_of e.now)) n e.now)) }
{
    if causal::set::contains(held, id_of(e)) {
        return at;
    }
    put_frame(&started(n, e), out, at)
}

// Each next frame right behind the one before; gives the number of words.
pub fn put_all(held: [u32; 8], n: u32, own: &[Entry], e: &Entry, out: &mut [u32]) -> usize
    requires { Framed n own.now × (frame_ok n 64 (startedOf n e.now) ≡ true) × (length (all_frames held n own.now e.now) ≤ length out.old) }
    ensures { (result ≡ length (all_frames held n own.now e.now)) × (out.new ≡ laid (all_frames held n own.now e.now) out.old) }
{
    let mut at = 0;
    for own_write in own {
        at = put_turn(held, n, own_write, &mut *out, at);
    }
    let last = started(n, e);
    put_frame(&last, out, at)
}
