// Words: the top four bits are the kind, the lower 28 the payload.
ghost use Rattle.std.specs.Prelude.{◌≡◌, ℕ, ◌+◌, ◌/◌, ◌%◌, ◌<◌, ◌≤◌, true, length, take, set, ◌==◌, nat_le, slice_index, slice_set, List};
ghost use Rattle.std.proofs.lemmas.List.Edits.{sets};
ghost use Rattle.causal.specs.Lists.{tab};
ghost use Rattle.causal.specs.Tests.{both};
ghost use Rattle.frame.specs.Words.{payload, kind_is, total, clock_words, clock_from, id_words_in, id_words, ids_from, sum_word};
ghost use Rattle.frame.specs.Reading.{clock_kinds, clocks_in, next_ok, ascends, bit_in, eight_bits, four_bits, sum_ok};

pub const LOW: u32 = 0x1000_0000;

// Is w a word of this kind? Kinds that no format has are no word's.
#[tactic(auto, unfolding(crate::specs::Words::is_kind, crate::specs::Words::kind_is, causal::specs::Tests::both, causal::specs::Tests::either))]
pub fn kind_is(want: u32, w: u32) -> bool
    ensures { result ≡ kind_is want w }
{
    let kind = w / LOW;
    // Which kind is asked first: where `want` is known, nothing is left of the match.
    kind == want
        && match kind {
            1 | 3..=6 | 8 | 15 => true,
            0 | 2 | 7 | 9..=14 => false,
            _ => false,
        }
}

// The sum of the payloads, modulo 2^28: the kinds are multiples of 2^28 and fall away with what wraps.
pub fn check_sum(ws: &[u32]) -> u32
    ensures { result ≡ total ws.now % 268435456 }
{
    ws.iter().fold(0u32, |sum, &w| sum.wrapping_add(w)) % LOW
}

// ---- writing

// The place behind words that were put, and their sum modulo 2^32: what a check needs of it is the rest modulo 2^28.
#[derive(Clone, Copy)]
pub struct Put {
    pub to: usize,
    pub sum: u32,
}

// So many words from at on, each by its place; gives their sum.
fn put_words<F: Fn(usize) -> u32>(count: usize, word: F, out: &mut [u32], at: usize) -> u32
    requires room { at + count ≤ length out.old }
    requires asked { (j : ℕ) → j < count → F.pre word j }
    ensures { (ws : List ℕ) × (length ws ≡ count) × ((j : ℕ) → j < count → F.post word j (slice_index ws j)) × (result % 268435456 ≡ total ws % 268435456) × (out.new ≡ sets out.old at ws) }
{
    let mut sum = 0u32;
    // By index: it is what `word` is asked for.
    for j in 0..count {
        let w = word(j);
        out[at + j] = w;
        sum = sum.wrapping_add(w);
    }
    sum
}

// n clock words from at on; gives their sum.
pub fn put_clock(clock: [u32; 8], n: usize, out: &mut [u32], at: usize) -> u32
    requires { (n ≤ 8) × (at + n ≤ length out.old) × ((j : ℕ) → j < 8 → slice_index clock j ≤ 32) }
    ensures { (result % 268435456 ≡ total (clock_words n clock) % 268435456) × (out.new ≡ sets out.old at (clock_words n clock)) }
{
    put_words(n, |j| 0x5000_0000 + clock[j], out, at)
}

// The words of count ids, one next to the other, from at on: first is the word of the lowest. Gives their sum.
fn put_run(first: u32, count: usize, out: &mut [u32], at: usize) -> u32
    requires { (first ≤ 1879048192) × (count ≤ 32) × (at + count ≤ length out.old) }
    ensures { (result % 268435456 ≡ total (tab count (λ i. first + i)) % 268435456) × (out.new ≡ sets out.old at (tab count (λ i. first + i))) }
{
    put_words(count, |i| first + i as u32, out, at)
}

// The words of the ids in word j of a set, lowest first, from at on. One at a time: std has no iterator over the bits that are
// set, and store::bits::Bits stands above this crate.
fn put_each(j: usize, w: u32, out: &mut [u32], at: usize) -> Put
    requires { (j < 8) × (at + length (id_words_in j w 32) ≤ length out.old) }
    ensures { (result.to ≡ at + length (id_words_in j w 32)) × (result.sum % 268435456 ≡ total (id_words_in j w 32) % 268435456) × (out.new ≡ sets out.old at (id_words_in j w 32)) }
{
    let first = 0x6000_0001 + 256 * j as u32;
    let mut to = at;
    let mut sum: u32 = 0;
    let mut rest = w;
    while rest != 0 {
        let word = first + rest.trailing_zeros();
        out[to] = word;
        sum = sum.wrapping_add(word);
        rest = rest & (rest - 1);
        to += 1;
    }
    Put { to, sum }
}

// The same, where most words of a set have all ids up to some serial.
fn put_ids_of(j: usize, w: u32, out: &mut [u32], at: usize) -> Put
    requires { (j < 8) × (at + length (id_words_in j w 32) ≤ length out.old) }
    ensures { (result.to ≡ at + length (id_words_in j w 32)) × (result.sum % 268435456 ≡ total (id_words_in j w 32) % 268435456) × (out.new ≡ sets out.old at (id_words_in j w 32)) }
{
    if w < 256 {
        return put_each(j, w, out, at);
    }
    let free = w.leading_zeros();
    if w != 0xFFFF_FFFF >> free {
        return put_each(j, w, out, at);
    }
    let count = 32 - free as usize;
    let sum = put_run(0x6000_0001 + 256 * j as u32, count, out, at);
    Put {
        to: at + count,
        sum,
    }
}

// The words of a set of ids, from at on.
pub fn put_ids(ids: [u32; 8], out: &mut [u32], at: usize) -> Put
    requires { at + length (id_words ids) ≤ length out.old }
    ensures { (result.to ≡ at + length (id_words ids)) × (result.sum % 268435456 ≡ total (id_words ids) % 268435456) × (out.new ≡ sets out.old at (id_words ids)) }
{
    let mut to = at;
    let mut sum: u32 = 0;
    for (j, &w) in ids.iter().enumerate() {
        let put = put_ids_of(j, w, &mut *out, to);
        to = put.to;
        sum = sum.wrapping_add(put.sum);
    }
    Put { to, sum }
}

// The check word of the words before end, at end.
pub fn put_sum(out: &mut [u32], end: usize)
    requires { end < length out.old }
    ensures { out.new ≡ slice_set out.old end (sum_word (take end out.old)) }
{
    let sum = check_sum(&out[..end]);
    out[end] = 0xF000_0000 + sum;
}

// ---- reading

// Are the n words from at on of the kind of clock words?
pub fn clock_kinds(ws: &[u32], at: usize, n: usize) -> bool
    requires { at + n ≤ length ws.now }
    ensures { result ≡ clock_kinds ws.now at n }
{
    ws[at..at + n].iter().all(|&w| kind_is(5, w))
}

// Is w a word of a clock, with a number up to 32?
#[tactic(auto, unfolding(causal::specs::Tests::both))]
fn clock_word(w: u32) -> bool
    ensures { result ≡ both (kind_is 5 w) (nat_le (payload w) 32) }
{
    kind_is(5, w) && w % LOW <= 32
}

// The same for the n words from at on.
pub fn clock_words(ws: &[u32], at: usize, n: usize) -> bool
    requires { at + n ≤ length ws.now }
    ensures { result ≡ clocks_in ws.now at n }
{
    ws[at..at + n].iter().all(|&w| clock_word(w))
}

// The clock whose n words stand from at on.
pub fn clock_from(ws: &[u32], at: usize, n: usize) -> [u32; 8]
    requires { (n ≤ 8) × (at + n ≤ length ws.now) }
    ensures { result ≡ clock_from ws.now at n }
{
    let mut clock = [0u32; 8];
    // No zip with `clock.iter_mut()`: a proof knows nothing of what an adapter of `iter_mut` leaves.
    for (j, &w) in ws[at..at + n].iter().enumerate() {
        clock[j] = w % LOW;
    }
    clock
}

// 0 where w may stand right behind a word of an id: it is above it, and its serial is one of 1 to 32.
fn not_next(before: u32, w: u32) -> u32
    ensures { (result == 0) ≡ next_ok before w }
{
    if w <= before {
        return 1;
    }
    (w - 1) / 32 % 8
}

// Are the words ones of ids of n offices, strictly ascending? The kinds of the first and the last and the office of the last are those of all
// between. No way out of the loop: several words are asked at once.
pub fn ids_ascend(ws: &[u32], n: u32) -> bool
    ensures { result ≡ ascends n 0 ws.now }
{
    if ws.is_empty() {
        return true;
    }
    let first = ws[0];
    let last = ws[ws.len() - 1];
    if !kind_is(6, first) || !kind_is(6, last) || last % LOW / 256 >= n {
        return false;
    }
    let start = not_next(0x6000_0000, first);
    let pairs = ws.iter().zip(&ws[1..]);
    let wrong = pairs.fold(start, |wrong, (&a, &b)| wrong | not_next(a, b));
    wrong == 0
}

// Do eight ids of a row, one next to the other, begin at i?
#[tactic(auto, using(crate::proofs::Ascents::rises))]
fn is_run(ws: &[u32], i: usize) -> bool
    requires { (i < length ws.now) × (ascends 8 0 ws.now ≡ true) }
    ensures { result ≡ true → (i + 7 < length ws.now) × (slice_index ws.now (i + 7) ≡ slice_index ws.now i + 7) }
{
    ws.len() - i >= 8 && ws[i + 7] - ws[i] == 7
}

// A word of a set with the eight bits from b on.
fn with_eight(w: u32, b: u32) -> u32
    requires { b ≤ 24 }
    ensures { result ≡ eight_bits w b }
{
    w | (1u32 << b)
        | (2u32 << b)
        | (4u32 << b)
        | (8u32 << b)
        | (16u32 << b)
        | (32u32 << b)
        | (64u32 << b)
        | (128u32 << b)
}

// Are the four ids of a row from i on of one office?
fn is_four(ws: &[u32], i: usize) -> bool
    requires { i < length ws.now }
    ensures { result ≡ true → (i + 3 < length ws.now) × (slice_index ws.now (i + 3) / 256 ≡ slice_index ws.now i / 256) }
{
    ws.len() - i >= 4 && ws[i + 3] / 256 == ws[i] / 256
}

// The bit of an id in the word of its office.
fn bit_of(w: u32) -> u32
    requires { 1 ≤ w }
    ensures { result ≡ bit_in w }
{
    1u32 << ((w - 1) % 32)
}

// A word of a set with the four ids of a row from i on.
fn with_four(w: u32, ws: &[u32], i: usize) -> u32
    requires { (i + 3 < length ws.now) × (ascends 8 0 ws.now ≡ true) }
    ensures { result ≡ four_bits w ws.now i }
{
    w | bit_of(ws[i]) | bit_of(ws[i + 1]) | bit_of(ws[i + 2]) | bit_of(ws[i + 3])
}

// The set that ascending words of ids name: eight that stand one next to the other, or four of one office, are put in at once.
pub fn ids_from(ws: &[u32]) -> [u32; 8]
    requires { ascends 8 0 ws.now ≡ true }
    ensures { result ≡ ids_from ws.now }
{
    let mut ids = [0u32; 8];
    let mut i: usize = 0;
    // A `while`: a turn goes on by one, four or eight words.
    while i < ws.len() {
        let w = ws[i];
        let j = (w / 256 % 8) as usize;
        if !is_four(ws, i) {
            ids[j] |= bit_of(w);
            i += 1;
        } else if is_run(ws, i) {
            ids[j] = with_eight(ids[j], (w - 1) % 32);
            i += 8;
        } else {
            ids[j] = with_four(ids[j], ws, i);
            i += 4;
        }
    }
    ids
}

// Is the last word the check of those before it?
#[tactic(auto, unfolding(crate::specs::Reading::sum_ok, causal::specs::Tests::both))]
pub fn sum_ok(ws: &[u32]) -> bool
    requires { 1 ≤ length ws.now }
    ensures { result ≡ sum_ok ws.now }
{
    let end = ws.len() - 1;
    let last = ws[end];
    kind_is(15, last) && last % LOW == check_sum(&ws[..end])
}
