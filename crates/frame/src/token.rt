// Tokens (01: slips): a session as a row of words.
ghost use Rattle.std.specs.Prelude.{◌≡◌, ℕ, ◌+◌, ◌%◌, ◌<◌, ◌≤◌, true, false, [], ◌∷◌, ◌++◌, length, get_or, take, drop, cond, None, Some, ok_or, slice_index, slice_index_or, slice_set};
ghost use Rattle.std.specs.Result.{result_unwrap_or};
ghost use Rattle.std.proofs.lemmas.List.Edits.{sets};
ghost use Rattle.causal.specs.Lists.{tab};
ghost use Rattle.frame.specs.Entries.{ids_ok};
ghost use Rattle.frame.specs.Words.{clock_words, id_words, total};
ghost use Rattle.frame.specs.Refusals.{code_of, reply_of};
ghost use Rattle.frame.specs.declared.refusal.Refusal.TheVariants.{Format};
ghost use Rattle.frame.specs.Frames.{ring_ok, framed, frame_ok, frame_of};
ghost use Rattle.frame.specs.Calls.{laid};
ghost use Rattle.frame.specs.Sessions.{nobody, content_of, filled, session_of, session_ok, fresh_content};
ghost use Rattle.frame.specs.Tokens.{own_rows, token_head, token_words, frame_length, own_from};
ghost use Rattle.frame.specs.TokenReading.{token_shape, own_in, own_frames_ok, start_ok, carried_ok};
ghost use Rattle.frame.specs.TokenCalls.{session_in};
ghost use Rattle.frame.specs.Promises.{ReadTokenPromise, WriteTokenPromise};

use crate::entry::{Entry, Frame};
use crate::refusal::Refusal;
use crate::session::Session;
use crate::word::Put;

// ---- writing

// An own write on no way: none still to hear.
fn own_frame(n: u32, e: &Entry) -> Frame
    ensures { result ≡ framed n 0 e.now }
{
    Frame {
        offices: n,
        hops: 0,
        entry: *e,
    }
}

// How many words the own writes take.
#[tactic(auto, using(crate::proofs::TokenTurns::rows_size, crate::proofs::TokenTurns::rows_few))]
fn own_words(n: u32, own: &[Entry]) -> usize
    requires { (n ≤ 8) × (length own.now ≤ 16) }
    ensures { result ≡ length (own_rows n own.now) }
{
    own.iter()
        .map(|e| crate::writer::words_of(&own_frame(n, e)))
        .sum()
}

// How many words a token takes.
fn words_of(s: &Session) -> usize
    requires { (s.now.offices ≤ 8) × (s.now.count ≤ 16) }
    ensures { result ≡ length (token_words (content_of s.now)) }
{
    let n = s.offices;
    let words = own_words(n, crate::session::own_writes(s));
    n as usize + causal::set::size(s.read) + words + 2
}

fn head_word(n: u32, owns: u32, reads: u32) -> u32
    requires { (n ≤ 8) × (owns ≤ 16) × (reads ≤ 256) }
    ensures { result ≡ token_head n owns reads }
{
    0x8000_0000 + (n * 0x0100_0000 + (owns * 0x1_0000 + reads))
}

// The own writes, each right behind the one before; gives the place behind them.
fn put_owns(n: u32, own: &[Entry], out: &mut [u32], at: usize) -> usize
    requires { ((i : ℕ) → i < length own.now → frame_ok n 64 (framed n 0 (slice_index_or own.now i nobody)) ≡ true) × (at + length (own_rows n own.now) ≤ length out.old) }
    ensures { (result ≡ at + length (own_rows n own.now)) × (out.new ≡ sets out.old at (own_rows n own.now)) }
{
    let mut to = at;
    for e in own {
        to = crate::writer::put_frame(&own_frame(n, e), &mut *out, to);
    }
    to
}

// The head, the clock and the read ids. The head is put behind what it counts.
fn put_start(s: &Session, out: &mut [u32]) -> Put
    requires { (s.now.offices ≤ 8) × (s.now.count ≤ 16) × ((j : ℕ) → j < 8 → slice_index s.now.clock j ≤ 32) × (1 + s.now.offices + length (id_words s.now.read) ≤ length out.old) }
    ensures { (result.to ≡ 1 + s.now.offices + length (id_words s.now.read))
        × (result.sum % 268435456 ≡ total (token_head s.now.offices s.now.count (length (id_words s.now.read)) ∷ (clock_words s.now.offices s.now.clock ++ id_words s.now.read)) % 268435456)
        × (out.new ≡ sets (sets (slice_set out.old 0 (token_head s.now.offices s.now.count (length (id_words s.now.read)))) 1 (clock_words s.now.offices s.now.clock)) (1 + s.now.offices) (id_words s.now.read)) }
{
    let n = s.offices;
    let clocks = crate::word::put_clock(s.clock, n as usize, out, 1);
    let put = crate::word::put_ids(s.read, out, 1 + n as usize);
    let reads = put.to - 1 - n as usize;
    let head = head_word(n, s.count as u32, reads as u32);
    out[0] = head;
    Put {
        to: put.to,
        sum: clocks.wrapping_add(put.sum).wrapping_add(head),
    }
}

// The words of a token, where there is room for them. Where nothing is carried, its check is the sum of what was put.
fn fill(s: &Session, out: &mut [u32])
    requires { (ring_ok s.now.offices 64 ≡ true) × (session_ok s.now.offices 64 (content_of s.now) ≡ true) × (length (token_words (content_of s.now)) ≤ length out.old) }
    ensures { out.new ≡ laid (token_words (content_of s.now)) out.old }
{
    let put = put_start(s, &mut *out);
    if s.count == 0 {
        out[put.to] = 0xF000_0000 + put.sum % crate::word::LOW;
        return;
    }
    let end = put_owns(s.offices, crate::session::own_writes(s), &mut *out, put.to);
    crate::word::put_sum(out, end);
}

// The writing of a session that is lent. Not inlined: so the session is read where it lies, and is not copied first.
#[inline(never)]
fn write(s: &Session, out: &mut [u32]) -> Result<usize, Refusal>
    ensures { WriteTokenPromise s.now out.old (reply_of result) out.new }
{
    let n = s.offices;
    if !crate::entry::ring_ok(n, 64) || !crate::session::session_ok(s, n, 64) {
        return Err(Refusal::Content);
    }
    let words = words_of(s);
    if words > out.len() {
        return Err(Refusal::Room);
    }
    fill(s, out);
    Ok(words)
}

// 01: write a slip.
#[inline(always)]
pub fn write_token(s: Session, out: &mut [u32]) -> Result<usize, Refusal>
    ensures { WriteTokenPromise s out.old (reply_of result) out.new }
{
    write(&s, out)
}

// ---- reading

// The head is one, for n offices, and what it counts may stand in the row.
#[tactic(auto, unfolding(crate::specs::TokenReading::token_shape, causal::specs::Tests::both))]
fn shape_ok(ws: &[u32], n: u32) -> bool
    requires { n ≤ 8 }
    ensures { result ≡ token_shape n ws.now }
{
    if ws.len() < 1 {
        return false;
    }
    let head = ws[0];
    let fields = head % crate::word::LOW;
    crate::word::kind_is(8, head)
        && fields / 0x0100_0000 == n
        && fields / 512 % 128 == 0
        && fields / 0x1_0000 % 256 <= 16
        && (n + fields % 512 + 2) as usize <= ws.len()
}

// The own write whose frame the row begins with, and how many words that frame has.
fn own_from(ws: &[u32], n: u32, p: u32) -> Option<(Entry, usize)>
    requires { ring_ok n p ≡ true }
    ensures { result ≡ own_in n p ws.now }
{
    if ws.len() < 1 {
        return None;
    }
    let words = (n + ws[0] % crate::word::LOW % 256 + 4) as usize;
    if words > ws.len() {
        return None;
    }
    let frame = crate::reader::frame_from(&ws[..words], n, p)?;
    if frame.hops != 0 {
        return None;
    }
    Some((frame.entry, words))
}

// Do the frames of so many own writes stand one behind the other, up to the last word? They are put into the first places of own.
fn owns_from(ws: &[u32], n: u32, p: u32, count: usize, own: &mut [Entry; 16]) -> bool
    requires { (ring_ok n p ≡ true) × (count ≤ 16) }
    ensures { (result ≡ own_frames_ok count n p ws.now) × (result ≡ true → own.new ≡ own_from count n ws.now ++ drop count own.old) }
{
    let mut at = 0;
    for place in &mut own[..count] {
        let Some((e, words)) = own_from(&ws[at..], n, p) else {
            return false;
        };
        *place = e;
        at += words;
    }
    ws.len() - at == 1
}

// All of a row but the numbers of the clock and the own frames: the head, the kinds of the clock words, the read ids, the check.
#[tactic(auto, using(crate::proofs::TokenReads::reads_between), unfolding(crate::specs::TokenReading::start_ok, causal::specs::Tests::both))]
fn start_ok(ws: &[u32], n: u32) -> bool
    requires { n ≤ 8 }
    ensures { result ≡ start_ok n ws.now }
{
    if !shape_ok(ws, n) {
        return false;
    }
    let from = 1 + n as usize;
    let to = from + (ws[0] % crate::word::LOW % 512) as usize;
    crate::word::clock_kinds(ws, 1, n as usize)
        && crate::word::ids_ascend(&ws[from..to], n)
        && crate::word::sum_ok(ws)
}

// The session whose own frames stand in ws, up to the last word.
#[inline(always)]
fn laden(
    ws: &[u32],
    n: u32,
    p: u32,
    clock: [u32; 8],
    read: [u32; 8],
    count: usize,
) -> Result<Session, Refusal>
    requires { (ring_ok n p ≡ true) × (count ≤ 16) × (ids_ok n read ≡ true) }
    ensures { result ≡ ok_or (cond (carried_ok count n p read ws.now) (Some (session_of (record { offices = n; clock = clock; read = read; own = own_from count n ws.now }))) None) Format }
{
    let mut own = [crate::entry::blank_entry(); 16];
    if !owns_from(ws, n, p, count, &mut own) {
        return Err(Refusal::Format);
    }
    if !crate::session::owns_ok(n, p, read, &own[..count]) {
        return Err(Refusal::Format);
    }
    Ok(Session {
        offices: n,
        clock,
        read,
        count,
        own,
    })
}

// The session that a row has. One with no own frames is told apart, and each is made in the answer: so no row of entries is copied.
#[inline(always)]
fn session_from(ws: &[u32], offices: u32, plots: u32) -> Result<Session, Refusal>
    requires { ring_ok offices plots ≡ true }
    ensures { result ≡ ok_or (session_in offices plots ws.now) Format }
{
    if !start_ok(ws, offices) {
        return Err(Refusal::Format);
    }
    let clock = crate::word::clock_from(ws, 1, offices as usize);
    if !crate::entry::clock_ok(offices as usize, clock) {
        return Err(Refusal::Format);
    }
    let head = ws[0] % crate::word::LOW;
    let from = 1 + offices as usize;
    let to = from + (head % 512) as usize;
    let read = crate::word::ids_from(&ws[from..to]);
    let count = (head / 0x1_0000 % 256) as usize;
    if count != 0 {
        return laden(&ws[to..], offices, plots, clock, read, count);
    }
    if ws.len() - to != 1 {
        return Err(Refusal::Format);
    }
    Ok(Session {
        offices,
        clock,
        read,
        count,
        own: [crate::entry::blank_entry(); 16],
    })
}

// 01: read a slip.
#[inline(always)]
pub fn read_token(ws: &[u32], offices: u32, plots: u32) -> Result<Session, Refusal>
    ensures { ReadTokenPromise ws.now offices plots (code_of result) (result_unwrap_or result (session_of (fresh_content 0))) }
{
    if !crate::entry::ring_ok(offices, plots) {
        return Err(Refusal::Settings);
    }
    session_from(ws, offices, plots)
}
