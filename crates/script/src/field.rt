// The number that a field of a line writes.
ghost use Rattle.std.specs.Prelude.{◌≡◌};
ghost use Rattle.script.specs.Steps.{below_of, number_of, with_digit_of};

// A number with one digit more, if the byte is a digit and the number stays below 2^32.
#[tactic(auto, unfolding(crate::specs::Steps::with_digit_of, crate::specs::Fields::is_digit, causal::specs::Tests::both))]
fn with_digit(v: u32, b: u8) -> Option<u32>
    ensures { result ≡ with_digit_of v b }
{
    if !b.is_ascii_digit() {
        return None;
    }
    v.checked_mul(10)?.checked_add(u32::from(b - b'0'))
}

// The number: digits, at least one, with no leading zero.
pub fn number(field: &[u8]) -> Option<u32>
    ensures { result ≡ number_of field.now }
{
    let first = *field.first()?;
    if first == b'0' && field.len() > 1 {
        return None;
    }
    let mut v = 0;
    for b in field {
        v = with_digit(v, *b)?;
    }
    Some(v)
}

// The number, if it is below n.
#[tactic(auto, unfolding(crate::specs::Steps::below_of, crate::specs::Steps::number_of, crate::specs::Fields::is_below, causal::specs::Tests::both))]
pub fn below(n: u32, field: &[u8]) -> Option<u32>
    ensures { result ≡ below_of n field.now }
{
    number(field).filter(|v| *v < n)
}
