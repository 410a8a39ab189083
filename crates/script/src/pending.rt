// A line whose end has not come yet: its first 32 bytes, and its length, which stops at 33. The longest proper line has 25 bytes.
ghost use Rattle.std.specs.Prelude.{◌≡◌, [], ◌≤◌, length};
ghost use Rattle.script.specs.Lines.{Named};
ghost use Rattle.script.specs.Pendings.{Takes, pending_of, parsed, is_empty, pushed};

use crate::line::{Line, parse_line};

#[derive(Clone, Copy)]
pub struct Pending {
    pub bytes: [u8; 32],
    pub len: usize,
}

impl Pending {
    #[tactic(auto, using(crate::proofs::Pendings::push_short, crate::proofs::Pendings::push_long))]
    fn push(&mut self, b: u8)
        ensures { self.new ≡ pushed self.old b }
    {
        if self.len < self.bytes.len() {
            self.bytes[self.len] = b;
            self.len += 1;
        } else {
            self.len = 33;
        }
    }
}

#[tactic(auto, unfolding(crate::specs::Pendings::pending_of))]
pub fn nothing() -> Pending
    ensures { result ≡ pending_of [] }
{
    Pending {
        bytes: [0u8; 32],
        len: 0,
    }
}

// The line that it is.
#[tactic(auto, using(crate::proofs::Lines::line_named), unfolding(crate::specs::Pendings::parsed))]
pub fn parse(p: Pending) -> Line
    ensures { (result ≡ parsed p) × Named result }
{
    match p.bytes.get(..p.len) {
        Some(line) => parse_line(line),
        None => Line::Other,
    }
}

#[tactic(auto, unfolding(crate::specs::Pendings::is_empty))]
pub fn is_empty(p: Pending) -> bool
    ensures { result ≡ is_empty p }
{
    p.len == 0
}

// All three are read whether a line has ended or not.
#[derive(Clone, Copy)]
pub struct Taken {
    pub pending: Pending,
    pub next: usize,
    pub ended: bool,
}

// With the bytes from `from` on up to a newline, which is not among them, or up to the end.
pub fn take(p: Pending, bytes: &[u8], from: usize) -> Taken
    requires { from ≤ length bytes.now }
    ensures { Takes p bytes.now from result }
{
    let mut pending = p;
    for (i, b) in bytes[from..].iter().enumerate() {
        if *b == b'\n' {
            return Taken {
                pending,
                next: from + i + 1,
                ended: true,
            };
        }
        pending.push(*b);
    }
    Taken {
        pending,
        next: bytes.len(),
        ended: false,
    }
}
