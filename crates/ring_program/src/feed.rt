// Bytes of a script fed to the player, and the text of the replies.
ghost use Rattle.std.specs.Prelude.{◌≡◌, IsOk, List, ℕ, ◌+◌, ◌-◌, ◌<◌, ◌≤◌, is_ok, length, true};
ghost use Rattle.causal.specs.Lists.{part};
ghost use Rattle.script.specs.Lines.{Named};
ghost use Rattle.script.specs.Pendings.{pending_of};
ghost use Rattle.player.specs.Play.{Scene};
ghost use Rattle.player.specs.Shows.{Shows, Shown};
ghost use Rattle.player.specs.Steps.{Plays};
ghost use Rattle.ring_program.specs.Fed.{Finishes, Follows, Leads, Staged, desk_of, emptied, fed};

use crate::output::{Untaken, write_all};
use frame::session::Session;
use office::note::set_seen;
use player::board::Board;
use player::play::{play_other, read_line, write_line};
use script::line::Line;
use script::pending::{Pending, is_empty, nothing, parse, take};
use script::reply::{Reply, put_reply};
use std::io::Stdout;
use writing::write::extend;

// Between two bytes: the sessions and the board, the line whose end has not come, how many bytes of text there are, and whether every write so far
// took its text: no line is played after a write that did not. The promise of `run` speaks of it, so it stands beside the answers of the calls.
#[derive(Clone, Copy)]
pub struct Stage {
    pub sessions: [Session; 4],
    pub board: Board,
    pub pending: Pending,
    pub at: usize,
    pub wrote: bool,
}

// A line played, by the session that it names, if it names one. The sessions are large: the one that a line names is lent, and changed where it stands.
fn play(
    stage: &mut Stage,
    line: Line,
    stores: &mut [u32],
    lines: &mut [u32],
    out: &mut [u32],
) -> Reply
    requires { Named line × (length out.old ≡ 1751) × Shown (desk_of stage.old) stores.old lines.old }
    ensures { (stage.new.pending ≡ stage.old.pending) × (stage.new.at ≡ stage.old.at) × (stage.new.wrote ≡ stage.old.wrote) × ((g : Scene) → Shows g (desk_of stage.old) stores.old lines.old → Plays out.old g line (record { desk = desk_of stage.new; reply = result }) stores.new lines.new) }
{
    match line {
        Line::Write(who, plot, value) => {
            let who = who as usize;
            let s = &stage.sessions[who];
            let turn = write_line(stage.board, who, s, plot, value, stores, lines, out);
            stage.board = turn.board;
            if let Some(entry) = turn.entry {
                extend(&mut stage.sessions[who], &entry);
            }
            turn.reply
        }
        Line::Read(who, plot) => {
            let who = who as usize;
            let turn = read_line(stage.board, who, &stage.sessions[who], plot, stores);
            if let Some(seen) = turn.seen {
                set_seen(&mut stage.sessions[who], seen);
            }
            turn.reply
        }
        _ => {
            let turn = play_other(stage.board, line, stores, lines, out);
            stage.board = turn.board; // whoever moved, and what waits
            turn.reply
        }
    }
}

// The bytes from `from` on, up to the end or to where the text has less than 40 bytes of room, which is answered.
pub fn feed_some(
    stage: &mut Stage,
    bytes: &[u8],
    from: usize,
    stores: &mut [u32],
    lines: &mut [u32],
    out: &mut [u32],
    text: &mut [u8],
) -> usize
    requires { (length out.old ≡ 1751) × (stage.old.at + 40 ≤ length text.old) × (from < length bytes.now) × Staged stage.old stores.old lines.old × (stage.old.wrote ≡ true) }
    ensures { (from < result) × (result ≤ length bytes.now) × (stage.new.at ≤ length text.old) × (stage.new.wrote ≡ true) × ((g : Scene) (l : List ℕ) → Shows g (desk_of stage.old) stores.old lines.old → stage.old.pending ≡ pending_of l → Follows (fed g l (part bytes.now from (result - from))) stage.old.at text.old stage.new stores.new lines.new text.new) }
{
    let mut i = from;
    // A while: take says where the next line begins.
    while i < bytes.len() {
        if text.len() - stage.at < 40 {
            return i;
        }
        let taken = take(stage.pending, bytes, i);
        i = taken.next;
        if !taken.ended {
            stage.pending = taken.pending;
            return i;
        }
        let line = parse(taken.pending);
        let reply = play(&mut *stage, line, &mut *stores, &mut *lines, &mut *out);
        stage.at = put_reply(reply, &mut *text, stage.at);
        stage.pending = nothing();
    }
    i
}

// The text goes out: the one place that writes replies.
pub fn write_out(mut stdout: Stdout, stage: &mut Stage, text: &[u8]) -> Result<(), Untaken>
    requires { stage.old.at ≤ length text.now }
    ensures { stage.new ≡ emptied stage.old (is_ok result) }
{
    let written = write_all(&mut stdout, &text[..stage.at]);
    stage.at = 0;
    stage.wrote = written.is_ok();
    written
}

// All bytes of a chunk, or those up to a failed write. The text is written out when it has less than 40 bytes of room, and at the end.
pub fn feed_all(
    stdout: Stdout,
    stage: &mut Stage,
    bytes: &[u8],
    stores: &mut [u32],
    lines: &mut [u32],
    out: &mut [u32],
    text: &mut [u8],
) -> Result<(), Untaken>
    requires { (length out.old ≡ 1751) × (length text.old ≡ 8192) × (stage.old.at ≡ 0) × Staged stage.old stores.old lines.old × (stage.old.wrote ≡ true) }
    ensures { (stage.new.at ≡ 0) × (stage.new.wrote ≡ is_ok result)
        × ((next : ℕ) × (next ≤ length bytes.now) × (IsOk result → next ≡ length bytes.now) × ((g : Scene) (l : List ℕ) → Shows g (desk_of stage.old) stores.old lines.old → stage.old.pending ≡ pending_of l → Leads (fed g l (part bytes.now 0 next)) stage.new stores.new lines.new)) }
{
    let mut from = 0;
    // A while: feed_some says how far it came.
    while from < bytes.len() {
        from = feed_some(
            &mut *stage,
            bytes,
            from,
            &mut *stores,
            &mut *lines,
            &mut *out,
            &mut *text,
        );
        write_out(stdout, &mut *stage, text)?;
    }
    Ok(())
}

// The input has ended: "a line ends at a newline or the input's end, and no line begins at the input's end".
pub fn finish(
    stdout: Stdout,
    stage: &mut Stage,
    stores: &mut [u32],
    lines: &mut [u32],
    out: &mut [u32],
    text: &mut [u8],
) -> Result<(), Untaken>
    requires { (length out.old ≡ 1751) × (length text.old ≡ 8192) × (stage.old.at ≡ 0) × Staged stage.old stores.old lines.old × (stage.old.wrote ≡ true) }
    ensures { (stage.new.wrote ≡ is_ok result)
        × ((g : Scene) (l : List ℕ) → Shows g (desk_of stage.old) stores.old lines.old → stage.old.pending ≡ pending_of l → Finishes g l text.old stage.new stores.new lines.new text.new) }
{
    if is_empty(stage.pending) {
        return Ok(());
    }
    feed_some(&mut *stage, b"\n", 0, stores, lines, out, &mut *text);
    write_out(stdout, stage, text)
}
