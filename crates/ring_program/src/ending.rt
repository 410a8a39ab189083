// How the program ends.
ghost use Rattle.std.specs.Prelude.{◌≡◌, true, List, ℕ, length};
ghost use Rattle.script.specs.Pendings.{pending_of};
ghost use Rattle.player.specs.Play.{Scene};
ghost use Rattle.player.specs.Shows.{Shows};
ghost use Rattle.ring_program.specs.Fed.{Staged, desk_of};
ghost use Rattle.ring_program.specs.Promises.{Closes};

use crate::feed::{Stage, finish};
use crate::output::Untaken;
use std::io::{Stderr, Stdout};
use std::{fmt, io};

// Why the program ends before the input does, or with replies that were not taken.
#[derive(Clone, Copy, Debug, PartialEq, Eq)]
pub enum Failure {
    Read,
    Write,
    TooLong, // more bytes than a number of 64 bits counts
}

impl fmt::Display for Failure {
    fn fmt<W: fmt::Write>(&self, f: &mut fmt::Formatter<W>) -> fmt::Result {
        f.write_str(match self {
            Failure::Read => "ring_program: standard input cannot be read",
            Failure::Write => "ring_program: standard output cannot be written",
            Failure::TooLong => "ring_program: standard input is too long",
        })
    }
}

impl From<Untaken> for Failure {
    ghost use Rattle.ring_program.specs.declared.ending.Failure.TheVariants.{Write};

    ghost from_gives = { λ _ failure. failure ≡ Write };

    fn from(_untaken: Untaken) -> Failure {
        Failure::Write
    }
}

// No more bytes come, by what the last read said. At the input's end what is pending is the last line; before a failed read it may be half a line,
// and is not played.
pub fn close(
    said: io::Result<usize>,
    stdout: Stdout,
    stage: &mut Stage,
    stores: &mut [u32],
    lines: &mut [u32],
    out: &mut [u32],
    text: &mut [u8],
) -> Result<(), Failure>
    requires { (length out.old ≡ 1751) × (length text.old ≡ 8192) × (stage.old.at ≡ 0) × Staged stage.old stores.old lines.old × (stage.old.wrote ≡ true) }
    ensures { (g : Scene) (l : List ℕ) → Shows g (desk_of stage.old) stores.old lines.old → stage.old.pending ≡ pending_of l → Closes result said g l text.old stage.new stores.new lines.new text.new }
{
    if said.is_err() {
        return Err(Failure::Read);
    }
    finish(stdout, stage, stores, lines, out, text)?;
    Ok(())
}

// A failure is said on standard error, and the exit status is 0 however the program ends.
pub fn say(stderr: Stderr, failure: Failure) {
    let _ = stderr.eprintln(failure);
}
