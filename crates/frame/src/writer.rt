// Writing a frame.
ghost use Rattle.std.specs.Prelude.{◌≡◌, ◌+◌, ◌%◌, ◌<◌, ◌≤◌, true, [], ◌∷◌, length, nat_le};
ghost use Rattle.std.proofs.lemmas.List.Edits.{sets};
ghost use Rattle.frame.specs.Frames.{head_word, frame_ok, frame_words};
ghost use Rattle.frame.specs.Calls.{laid};
ghost use Rattle.frame.specs.Promises.{WriteFramePromise};
ghost use Rattle.frame.specs.Refusals.{reply_of};

use crate::entry::Frame;
use crate::refusal::Refusal;

fn put_head(out: &mut [u32], head: u32, plot: u32, value: u32)
    requires { (3 ≤ length out.old) × (plot < 268435456) × (value < 268435456) }
    ensures { out.new ≡ sets out.old 0 (head ∷ (805306368 + plot) ∷ (1073741824 + value) ∷ []) }
{
    out[0] = head;
    out[1] = 0x3000_0000 + plot;
    out[2] = 0x4000_0000 + value;
}

fn head_word(office: u32, serial: u32, hops: u32, offices: u32, count: u32) -> u32
    requires { (office < 16) × (serial < 256) × (hops < 16) × (offices < 16) × (count < 256) }
    ensures { result ≡ head_word office serial hops offices count }
{
    0x1000_0000
        + (office * 0x0100_0000 + (serial * 0x1_0000 + (hops * 0x1000 + (offices * 256 + count))))
}

// The check word of a frame, by the sums of its parts: the kinds of plot and value words fall away.
#[tactic(auto, using(crate::proofs::Chains::three_wrapped))]
fn check_word(head: u32, fields: u32, clocks: u32, deps: u32) -> u32
    ensures { result ≡ 4026531840 + (head + fields + clocks + deps) % 268435456 }
{
    let sum = head
        .wrapping_add(fields)
        .wrapping_add(clocks)
        .wrapping_add(deps);
    0xF000_0000 + sum % crate::word::LOW
}

// How many words a frame takes.
#[tactic(auto, using(crate::proofs::Frames::length_frame, crate::proofs::Words::ids_size, causal::proofs::Sets::size_le))]
pub fn words_of(f: &Frame) -> usize
    requires { f.now.offices ≤ 8 }
    ensures { result ≡ length (frame_words f.now) }
{
    f.offices as usize + causal::set::size(f.entry.deps) + 4
}

// Has a row of so many words room for a frame? No frame has more than 268: what it depends on is counted only for a shorter row.
#[tactic(auto, using(crate::proofs::Turns::frame_most))]
fn has_room(f: &Frame, room: usize) -> bool
    requires { f.now.offices ≤ 8 }
    ensures { result ≡ nat_le (length (frame_words f.now)) room }
{
    room >= 268 || words_of(f) <= room
}

// The words of a frame that may be written, where there is room for them: nothing is asked again. Gives how many. The head is put behind what
// it counts.
fn put(f: &Frame, out: &mut [u32]) -> usize
    requires { (frame_ok f.now.offices 64 f.now ≡ true) × (length (frame_words f.now) ≤ length out.old) }
    ensures { (result ≡ length (frame_words f.now)) × (out.new ≡ laid (frame_words f.now) out.old) }
{
    let e = &f.entry;
    let offices = f.offices;
    let clocks = crate::word::put_clock(e.clock, offices as usize, out, 3);
    let put = crate::word::put_ids(e.deps, out, 3 + offices as usize);
    let end = put.to;
    let count = end - 3 - offices as usize;
    let head = head_word(e.office, e.serial, f.hops, offices, count as u32);
    put_head(out, head, e.plot, e.value);
    out[end] = check_word(head, e.plot + e.value, clocks, put.sum);
    end + 1
}

// A frame that may be written, from at on: the rest of out is lent to the frame writer. Gives the place behind it.
pub fn put_frame(f: &Frame, out: &mut [u32], at: usize) -> usize
    requires { (frame_ok f.now.offices 64 f.now ≡ true) × (at + length (frame_words f.now) ≤ length out.old) }
    ensures { (result ≡ at + length (frame_words f.now)) × (out.new ≡ sets out.old at (frame_words f.now)) }
{
    let words = put(f, &mut out[at..]);
    at + words
}

// 01: write a frame.
pub fn write_frame(f: Frame, out: &mut [u32]) -> Result<usize, Refusal>
    ensures { WriteFramePromise f out.old (reply_of result) out.new }
{
    if !crate::entry::frame_ok(f.offices, 64, &f) {
        return Err(Refusal::Content);
    }
    if !has_room(&f, out.len()) {
        return Err(Refusal::Room);
    }
    Ok(put(&f, out))
}
