// Frames put into the slots of a line.
ghost use Rattle.std.specs.Prelude.{◌≡◌, ◌∷◌, ℕ, ◌+◌, ◌*◌, ◌%◌, ◌<◌, ◌≤◌, length};
ghost use Rattle.std.proofs.lemmas.List.Edits.{sets};
ghost use Rattle.causal.specs.Lists.{part};
ghost use Rattle.ring.specs.Run.{next_of};
ghost use Rattle.player.specs.Desks.{Cut, hops_at, length_at, pushed, start_of};

// Whom an office of a ring of three sends to.
pub fn next_of(office: usize) -> usize
    requires { office < 3 }
    ensures { result ≡ next_of 3 office }
{
    if office + 1 < 3 {
        return office + 1;
    }
    0
}

// The words of the frame that begins at a word of a row, by its head.
pub fn length_at(row: &[u32], at: usize) -> usize
    requires { at < length row.now }
    ensures { result ≡ length_at row.now at }
{
    7 + (row[at] % 256) as usize
}

// The hops left to the frame that begins at a word of a row, by its head.
pub fn hops_at(row: &[u32], at: usize) -> u32
    requires { at < length row.now }
    ensures { result ≡ hops_at row.now at }
{
    row[at] / 0x1000 % 16
}

// How many frames begin in the first words of a row. An index loop: each step is as long as the frame that it is at.
pub fn count_frames(row: &[u32], words: usize) -> usize
    requires { (words ≤ length row.now) × (words ≤ 4096) }
    ensures { (n : ℕ) → Cut row.now words n → result ≡ n }
{
    let mut at = 0;
    let mut n = 0;
    while at < words {
        at += length_at(row, at);
        n += 1;
    }
    n
}

// A frame of `len` words, from word `at` of a row on, into the slot that begins at `slot`.
pub fn push_frame(lines: &mut [u32], slot: usize, row: &[u32], at: usize, len: usize)
    requires { (len ≤ 103) × (slot + 104 ≤ length lines.old) × (at + len ≤ length row.now) }
    ensures { lines.new ≡ sets lines.old slot (len ∷ part row.now at len) }
{
    let from = slot + 1;
    lines[slot] = len as u32;
    lines[from..from + len].copy_from_slice(&row[at..at + len]);
}

// The first n frames of a row, into the slots of an office from slot q on. Each begins where the one before it ends.
pub fn push_frames(lines: &mut [u32], office: usize, q: usize, row: &[u32], n: usize)
    requires { (office < 3) × (q ≤ 64) × (n ≤ 32) × (length lines.old ≡ 9984) × (start_of row.now n ≤ length row.now) × ((k : ℕ) → k < n → length_at row.now (start_of row.now k) ≤ 103) }
    ensures { lines.new ≡ pushed lines.old office q row.now n }
{
    let mut at = 0;
    for k in 0..n {
        let len = length_at(row, at);
        let slot = 104 * (32 * office + (q + k) % 32);
        push_frame(&mut *lines, slot, row, at, len);
        at += len;
    }
}
