// The ring program: a script on standard input, a reply to each line on standard output.
#![tactic(auto)]

ghost use Rattle.std.specs.Prelude.{◌≡◌, [], length, true};
ghost use Rattle.script.specs.Pendings.{pending_of};
ghost use Rattle.player.specs.Shows.{Shown};
ghost use Rattle.ring_program.specs.Promises.{Reads, RunPromise};
ghost use Rattle.ring_program.specs.Fed.{desk_of};

mod ending;
mod feed;
mod input;
mod output;

use ending::{Failure, close, say};
use feed::{Stage, feed_all};
use input::read_chunk;
use player::opening::{Opened, open_ring};
use script::pending::nothing;
use std::io;
use std::io::{Stdin, Stdout};

// What the bytes read so far have led to.
#[derive(Clone, Copy)]
pub struct Progress {
    pub stage: Stage,
    pub left: u64, // u64::MAX less the bytes read
    pub said: io::Result<usize>, // what the last read said
}

// How the program ends, and with what.
#[derive(Clone, Copy)]
pub struct Outcome {
    pub ending: Result<(), Failure>,
    pub reached: Progress,
}

// A proved loop has to end, and nothing says that the input does: bytes are counted down from a number that no input has.
fn read_on(
    mut stdin: Stdin,
    stdout: Stdout,
    reached: &mut Progress,
    stores: &mut [u32],
    lines: &mut [u32],
    out: &mut [u32],
    input: &mut [u8],
    text: &mut [u8],
) -> Result<(), Failure>
    requires { (length out.old ≡ 1751) × (length input.old ≡ 4096) × (length text.old ≡ 8192) × (reached.old.stage.at ≡ 0) × (reached.old.stage.wrote ≡ true) × (reached.old.stage.pending ≡ pending_of []) × Shown (desk_of reached.old.stage) stores.old lines.old }
    ensures { Reads reached.old stores.old lines.old result reached.new stores.new lines.new text.new }
{
    while reached.left >= 4096 {
        reached.said = read_chunk(&mut stdin, &mut *input, &mut reached.left);
        let n = reached.said.unwrap_or(0);
        if n == 0 {
            let said = reached.said;
            return close(said, stdout, &mut reached.stage, stores, lines, out, text);
        }
        feed_all(
            stdout,
            &mut reached.stage,
            &input[..n],
            &mut *stores,
            &mut *lines,
            &mut *out,
            &mut *text,
        )?;
    }
    Err(Failure::TooLong)
}

// From the start to the end.
fn run(
    stdin: Stdin,
    stdout: Stdout,
    stores: &mut [u32],
    lines: &mut [u32],
    out: &mut [u32],
    input: &mut [u8],
    text: &mut [u8],
) -> Outcome
    requires { (length stores.old ≡ 5241) × (length lines.old ≡ 9984) × (length out.old ≡ 1751) × (length input.old ≡ 4096) × (length text.old ≡ 8192) }
    ensures { RunPromise stores.old result stores.new lines.new text.new }
{
    let Opened { sessions, board } = open_ring(&mut *stores);
    let mut reached = Progress {
        stage: Stage {
            sessions,
            board,
            pending: nothing(),
            at: 0,
            wrote: true,
        },
        left: u64::MAX,
        said: Ok(0),
    };
    let ending = read_on(stdin, stdout, &mut reached, stores, lines, out, input, text);
    Outcome { ending, reached }
}

fn main(rt: HostRuntime) {
    let mut stores = [0u32; 5241];
    let mut lines = [0u32; 9984];
    let mut out = [0u32; 1751];
    let mut input = [0u8; 4096];
    let mut text = [0u8; 8192];
    let outcome = run(
        rt.stdin(),
        rt.stdout(),
        &mut stores,
        &mut lines,
        &mut out,
        &mut input,
        &mut text,
    );
    if let Err(failure) = outcome.ending {
        say(rt.stderr(), failure);
    }
}
