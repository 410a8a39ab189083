// Rows of words.
ghost use Rattle.std.specs.Prelude.{◌≡◌, ◌+◌, ◌≤◌, length};
ghost use Rattle.std.proofs.lemmas.List.Edits.{sets};
ghost use Rattle.causal.specs.Lists.{part};

// n words of a row, from word a on, to those of another from word b on. Word by word: copy_from_slice would ask who links the archive for memmove.
pub fn copy_words(from: &[u32], a: usize, to: &mut [u32], b: usize, n: usize)
    requires { (a + n ≤ length from.now) × (b + n ≤ length to.old) }
    ensures { to.new ≡ sets to.old b (part from.now a n) }
{
    for (j, &w) in from[a..a + n].iter().enumerate() {
        to[b + j] = w;
    }
}
