// Vector clocks: eight numbers, one for each office.
ghost use Rattle.std.specs.Prelude.{◌≡◌};
ghost use Rattle.causal.specs.Clocks.{join as join_of};

// Place by place the greater.
pub fn join(a: [u32; 8], b: [u32; 8]) -> [u32; 8]
    ensures { result ≡ join_of a b }
{
    std::array::from_fn(|i| a[i].max(b[i]))
}
