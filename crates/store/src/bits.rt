// The set bits of a word, lowest first. The library has no iterator over them.
ghost use Rattle.std.specs.Iterator.{at_most};
ghost use Rattle.store.specs.Bits.{TakesLowest};

// What is left to walk.
#[derive(Drop)]
pub struct Bits(pub u32);

impl Iterator for Bits {
    type Item = usize;

    ghost next_gives = { λ s r t. TakesLowest s.0 r t.0 };

    ghost remaining = { λ s. at_most s.0 };

    fn next(&mut self) -> Option<usize> {
        if self.0 == 0 {
            return None;
        }
        let b = self.0.trailing_zeros() as usize;
        self.0 &= self.0 - 1;
        Some(b)
    }
}
