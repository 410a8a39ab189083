// Reading a frame: each word is checked where it stands.
ghost use Rattle.std.specs.Prelude.{◌≡◌, ◌+◌, ◌-◌, ◌*◌, ◌<◌, ◌≤◌, true, not, length, ◌==◌, nat_le, slice_index};
ghost use Rattle.causal.specs.Sets.{is_in};
ghost use Rattle.std.specs.Result.{result_unwrap_or};
ghost use Rattle.frame.specs.Refusals.{code_of};
ghost use Rattle.frame.specs.Frames.{ring_ok, blank_frame};
ghost use Rattle.frame.specs.Calls.{frame_in};
ghost use Rattle.causal.specs.Tests.{both};
ghost use Rattle.frame.specs.Entries.{clock_ok, ids_ok, entry_ok};
ghost use Rattle.frame.specs.Words.{clock_from};
ghost use Rattle.frame.specs.Reading.{shape_ok, kinds_ok, sum_ok, frame_at};
ghost use Rattle.frame.specs.Promises.{ReadFramePromise};

use crate::entry::{Entry, Frame};
use crate::refusal::Refusal;

// The head is one, for n offices, and the length is exact.
#[tactic(auto, unfolding(crate::specs::Reading::shape_ok, causal::specs::Tests::both))]
fn shape_ok(ws: &[u32], n: u32) -> bool
    requires { n ≤ 8 }
    ensures { result ≡ shape_ok n ws.now }
{
    if ws.len() < 1 {
        return false;
    }
    let head = ws[0];
    let fields = head % crate::word::LOW;
    crate::word::kind_is(1, head)
        && fields / 256 % 16 == n
        && ws.len() == (n + fields % 256 + 4) as usize
}

// The fields of a row that has the shape of a frame, with the clock and the dependencies that were read.
fn frame_of(ws: &[u32], n: u32, clock: [u32; 8], deps: [u32; 8]) -> Frame
    requires { (3 + n ≤ length ws.now) × (clock ≡ clock_from ws.now 3 n) }
    ensures { result ≡ frame_at n ws.now deps }
{
    let head = ws[0] % crate::word::LOW;
    let entry = Entry {
        office: head / 0x0100_0000,
        serial: head / 0x1_0000 % 256,
        plot: ws[1] % crate::word::LOW,
        value: ws[2] % crate::word::LOW,
        clock,
        deps,
    };
    Frame {
        offices: n,
        hops: head / 0x1000 % 16,
        entry,
    }
}

// Are the words behind the head of their kinds, up to the dependencies, and the numbers of the clock in range?
#[tactic(auto, using(crate::proofs::Reading::kinds_parts), unfolding(causal::specs::Tests::both))]
fn kinds_ok(ws: &[u32], n: u32) -> bool
    requires { (n ≤ 8) × (3 + n ≤ length ws.now) }
    ensures { result ≡ both (kinds_ok n ws.now) (clock_ok n (clock_from ws.now 3 n)) }
{
    crate::word::kind_is(3, ws[1])
        && crate::word::kind_is(4, ws[2])
        && crate::word::clock_words(ws, 3, n as usize)
}

// The rules of clock and dependencies, but for their ranges, which were seen as they were read.
#[tactic(auto, using(crate::proofs::Words::in_serial), unfolding(causal::specs::Tests::both))]
fn past_ok(office: usize, serial: u32, clock: [u32; 8], deps: [u32; 8]) -> bool
    requires { (office < 8) × (1 ≤ serial) × (serial ≤ 32) }
    ensures { result ≡ both (slice_index clock office == serial) (not (is_in deps (32 * office + (serial - 1)))) }
{
    clock[office] == serial && !crate::entry::in_word(deps[office], serial)
}

// The entry rules, where clock and dependencies are in range. Not by `entry_ok`, which would ask for that again.
#[tactic(auto, using(crate::proofs::Entries::bounds_facts), unfolding(crate::specs::Entries::entry_ok, causal::specs::Tests::both))]
fn rules_ok(n: u32, p: u32, e: &Entry) -> bool
    requires { (n ≤ 8) × (clock_ok n e.now.clock ≡ true) × (ids_ok n e.now.deps ≡ true) }
    ensures { result ≡ entry_ok n p e.now }
{
    crate::entry::bounds_ok(n, p, e) && past_ok(e.office as usize, e.serial, e.clock, e.deps)
}

// May the frame say what it says, and is the check word right?
#[tactic(auto, unfolding(causal::specs::Tests::both))]
fn content_ok(ws: &[u32], n: u32, p: u32, f: &Frame) -> bool
    requires { (2 ≤ n) × (n ≤ 8) × (1 ≤ length ws.now) × (clock_ok n f.now.entry.clock ≡ true) × (ids_ok n f.now.entry.deps ≡ true) }
    ensures { result ≡ both (nat_le f.now.hops (n - 2)) (both (sum_ok ws.now) (entry_ok n p f.now.entry)) }
{
    f.hops <= n - 2 && crate::word::sum_ok(ws) && rules_ok(n, p, &f.entry)
}

// The frame that a row has.
pub fn frame_from(ws: &[u32], offices: u32, plots: u32) -> Option<Frame>
    requires { ring_ok offices plots ≡ true }
    ensures { result ≡ frame_in offices plots ws.now }
{
    if !shape_ok(ws, offices) {
        return None;
    }
    if !kinds_ok(ws, offices) {
        return None;
    }
    let ids = &ws[3 + offices as usize..ws.len() - 1];
    if !crate::word::ids_ascend(ids, offices) {
        return None;
    }
    let clock = crate::word::clock_from(ws, 3, offices as usize);
    let frame = frame_of(ws, offices, clock, crate::word::ids_from(ids));
    if !content_ok(ws, offices, plots, &frame) {
        return None;
    }
    Some(frame)
}

// 01: read a frame. Only the answer is made here; a hearing, whose settings are in range, reads by `frame_from`.
#[inline(always)]
pub fn read_frame(ws: &[u32], offices: u32, plots: u32) -> Result<Frame, Refusal>
    ensures { ReadFramePromise ws.now offices plots (code_of result) (result_unwrap_or result blank_frame) }
{
    if !crate::entry::ring_ok(offices, plots) {
        return Err(Refusal::Settings);
    }
    frame_from(ws, offices, plots).ok_or(Refusal::Format)
}
