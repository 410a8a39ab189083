// Rank: of two entries the one whose clock is greater at the first office where they differ; of equal clocks, the greater office.
ghost use Rattle.std.specs.Prelude.{◌≡◌};
ghost use Rattle.causal.specs.Rank.{ranks_above};

// Does the entry of office o with the clock c outrank that of office p with the clock d?
pub fn outranks(c: [u32; 8], o: u32, d: [u32; 8], p: u32) -> bool
    ensures { result ≡ ranks_above c o d p }
{
    for (x, y) in c.iter().zip(&d) {
        if x != y {
            return x > y;
        }
    }
    o > p
}
