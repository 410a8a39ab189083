// The reply to a line of a script, with a newline behind it.
ghost use Rattle.std.specs.Prelude.{◌≡◌, ◌+◌, ◌≤◌, length};
ghost use Rattle.std.proofs.lemmas.List.Edits.{sets};
ghost use Rattle.script.specs.Replies.{reply_bytes};
ghost use Rattle.script.specs.Steps.{Puts};

use crate::put::Row;

#[derive(Clone, Copy, PartialEq, Eq, Debug)]
pub enum Reply {
    // W office.serial
    Wrote(u32, u32),
    // R value office.serial
    Found(u32, u32, u32),
    // R none
    NoEntry,
    // M ok
    Moved,
    // H and how many frames still wait
    Received(u32),
    // H none
    NoFrame,
    // refused and its number
    Refused(u32),
    // full
    Full,
    // line?
    Odd,
}

impl Row<'_> {
    #[tactic(auto, using(crate::proofs::Decimals::ten_enough, crate::proofs::Decimals::name_length))]
    fn reply(&mut self, reply: Reply)
        requires { self.old.at + 40 ≤ length self.old.out.now }
        ensures puts { Puts self.old (reply_bytes reply) self.new }
        ensures short { self.new.at ≤ self.old.at + 40 }
    {
        match reply {
            Reply::Wrote(o, s) => {
                self.text(b"W ");
                self.name(o, s);
            }
            Reply::Found(v, o, s) => {
                self.text(b"R ");
                self.decimal(v);
                self.text(b" ");
                self.name(o, s);
            }
            Reply::NoEntry => self.text(b"R none"),
            Reply::Moved => self.text(b"M ok"),
            Reply::Received(n) => {
                self.text(b"H ");
                self.decimal(n);
            }
            Reply::NoFrame => self.text(b"H none"),
            Reply::Refused(n) => {
                self.text(b"refused ");
                self.decimal(n);
            }
            Reply::Full => self.text(b"full"),
            Reply::Odd => self.text(b"line?"),
        }
        self.text(b"\n");
    }
}

// Puts the reply at `at`, and answers where it ends.
pub fn put_reply(reply: Reply, out: &mut [u8], at: usize) -> usize
    requires { at + 40 ≤ length out.old }
    ensures { (result ≡ at + length (reply_bytes reply)) × (out.new ≡ sets out.old at (reply_bytes reply)) × (result ≤ at + 40) }
{
    let mut row = Row { out, at };
    row.reply(reply);
    row.at
}
