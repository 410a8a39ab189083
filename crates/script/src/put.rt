// Bytes put into a row: a text, a number in decimal.
ghost use Rattle.std.specs.Prelude.{◌+◌, ◌≤◌, length};
ghost use Rattle.script.specs.Replies.{decimal, name_bytes};
ghost use Rattle.script.specs.Steps.{Puts};

// A row, and where the next byte goes.
#[derive(Drop)]
pub struct Row<'a> {
    pub out: &'a mut [u8],
    pub at: usize,
}

impl Row<'_> {
    pub fn text(&mut self, text: &[u8])
        requires { self.old.at + length text.now ≤ length self.old.out.now }
        ensures { Puts self.old text.now self.new }
    {
        let end = self.at + text.len();
        self.out[self.at..end].copy_from_slice(text);
        self.at = end;
    }

    // The digits in front of the last one come first.
    // By hand: std's `InlineText` and `write!` do not promise to write the whole of a number that fits.
    pub fn decimal(&mut self, v: u32)
        requires { self.old.at + length (decimal v) ≤ length self.old.out.now }
        ensures { Puts self.old (decimal v) self.new }
    {
        if v > 9 {
            self.decimal(v / 10);
        }
        self.text(&[b'0' + (v % 10) as u8]);
    }

    // A name: office.serial.
    #[tactic(auto, using(crate::proofs::Decimals::ten_enough))]
    pub fn name(&mut self, office: u32, serial: u32)
        requires { self.old.at + 21 ≤ length self.old.out.now }
        ensures { Puts self.old (name_bytes office serial) self.new }
    {
        self.decimal(office);
        self.text(b".");
        self.decimal(serial);
    }
}
