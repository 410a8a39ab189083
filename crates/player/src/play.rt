// A line of a script, played. Whoever plays has the four sessions, in a row ss: `desk ss board` is they and the board.
ghost use Rattle.std.specs.Prelude.{◌≡◌, IsSome, List, ℕ, ◌+◌, ◌*◌, ◌<◌, ◌≤◌, get_or, length, set};
ghost use Rattle.std.proofs.lemmas.List.Edits.{sets};
ghost use Rattle.causal.specs.Lists.{part};
ghost use Rattle.frame.specs.Refusals.{code_of, reply_of};
ghost use Rattle.office.specs.Promises.{MakePromise, ReadPromise, ReceivePromise};
ghost use Rattle.reading.specs.Answers.{seen_entry, seen_found, seen_session};
ghost use Rattle.writing.specs.Answers.{entry_by, words_by};
ghost use Rattle.player.specs.Desks.{Cut, desk, no_session, pushed, with_frames};
ghost use Rattle.player.specs.Play.{Scene};
ghost use Rattle.player.specs.Shows.{Shown, Shows};
ghost use Rattle.player.specs.Steps.{Few, Plays, after_read, after_write, entry_reply, received, sessionless, written};

use crate::ahead::{Stay, receive_ahead, write_ahead};
use crate::board::{
    Board, BoardTurn, ReadTurn, WriteTurn, with_frames, with_place, without_oldest,
};
use crate::queue::{count_frames, next_of, push_frames};
use frame::entry::Entry;
use frame::refusal::Refusal;
use frame::session::Session;
use reading::read::PlotSeen;
use script::line::Line;
use script::reply::Reply;
use writing::write::Made;

// The frames that a call left in the first words of `out` go to the line of the next office, which has room for them.
pub fn deliver(board: Board, next: usize, words: usize, lines: &mut [u32], out: &[u32]) -> Board
    requires { (next < 3) × (get_or board.first next 0 < 32) × (length lines.old ≡ 9984) × (length out.now ≡ 1751) × (words ≤ 1751) × ((n : ℕ) × Cut out.now words n × (get_or board.count next 0 + n ≤ 32)) }
    ensures { (n : ℕ) → Cut out.now words n → ((ss : List Session) → desk ss result ≡ with_frames (desk ss board) next n)
        × (lines.new ≡ pushed lines.old next (get_or board.first next 0 + get_or board.count next 0) out.now n) }
{
    let from = board.first[next] + board.count[next];
    let frames = count_frames(out, words);
    push_frames(lines, next, from, out, frames);
    with_frames(board, next, frames)
}

// A write at an office, on its part of the stores; the other parts stay.
pub fn write_at(
    stores: &mut [u32],
    office: usize,
    s: &Session,
    plot: u32,
    value: u32,
    out: &mut [u32],
) -> Result<Made, Refusal>
    requires { (office < 3) × (length stores.old ≡ 5241) }
    ensures { MakePromise (part stores.old (1747 * office) 1747) s.now plot value out.old (words_by result) (entry_by result) (part stores.new (1747 * office) 1747) out.new × (stores.new ≡ sets stores.old (1747 * office) (part stores.new (1747 * office) 1747)) }
{
    let from = 1747 * office;
    let end = from + 1747;
    writing::write::make(&mut stores[from..end], s, plot, value, out)
}

// A write that goes, with its frames delivered: the board then, and the entry; or why all stays.
fn try_write(
    board: Board,
    i: usize,
    s: &Session,
    plot: u32,
    value: u32,
    stores: &mut [u32],
    lines: &mut [u32],
    out: &mut [u32],
) -> Result<(Board, Entry), Stay>
    requires { (i < 4) × (length out.old ≡ 1751) × ((ss : List Session) × (get_or ss i no_session ≡ s.now) × Shown (desk ss board) stores.old lines.old) }
    ensures { Few s.now result
        × ((ss : List Session) (g : Scene) → get_or ss i no_session ≡ s.now → Shows g (desk ss board) stores.old lines.old
        → Plays out.old g (Line.Write i plot value) (written ss i s.now board result) stores.new lines.new) }
{
    let office = board.place[i] as usize;
    let next = next_of(office);
    write_ahead(stores, office, s, plot, value, board.count[next])?;
    let Made { words, entry } = write_at(&mut *stores, office, s, plot, value, &mut *out)?;
    Ok((deliver(board, next, words, lines, out), entry))
}

// `W`: session i, below 4, which is s, writes at the office where it is. `out` is left with any words.
pub fn write_line(
    board: Board,
    i: usize,
    s: &Session,
    plot: u32,
    value: u32,
    stores: &mut [u32],
    lines: &mut [u32],
    out: &mut [u32],
) -> WriteTurn
    requires { (i < 4) × (length out.old ≡ 1751) × ((ss : List Session) × (get_or ss i no_session ≡ s.now) × Shown (desk ss board) stores.old lines.old) }
    ensures { (IsSome result.entry → s.now.count < 16)
        × ((ss : List Session) (g : Scene) → get_or ss i no_session ≡ s.now → Shows g (desk ss board) stores.old lines.old
        → Plays out.old g (Line.Write i plot value) (record { desk = desk (set ss i (after_write s.now result.entry)) result.board; reply = result.reply }) stores.new lines.new) }
{
    match try_write(board, i, s, plot, value, stores, lines, out) {
        Ok((board, entry)) => WriteTurn {
            board,
            entry: Some(entry),
            reply: Reply::Wrote(entry.office, entry.serial),
        },
        Err(stay) => WriteTurn {
            board,
            entry: None,
            reply: Reply::from(stay),
        },
    }
}

// A reading at an office, on its part of the stores; the other parts stay.
pub fn read_at(
    stores: &mut [u32],
    office: usize,
    s: &Session,
    plot: u32,
) -> Result<PlotSeen, Refusal>
    requires { (office < 3) × (length stores.old ≡ 5241) }
    ensures { ReadPromise (part stores.old (1747 * office) 1747) s.now plot (code_of result) (seen_found result) (seen_entry result) (seen_session s.now result) (part stores.new (1747 * office) 1747) × (stores.new ≡ sets stores.old (1747 * office) (part stores.new (1747 * office) 1747)) }
{
    let from = 1747 * office;
    let end = from + 1747;
    reading::read::see_plot(&mut stores[from..end], s, plot)
}

pub fn reply_of(found: Option<Entry>) -> Reply
    ensures { result ≡ entry_reply found }
{
    match found {
        Some(e) => Reply::Found(e.value, e.office, e.serial),
        None => Reply::NoEntry,
    }
}

// `R`: session i, below 4, which is s, reads a plot at the office where it is. No line of frames is touched.
pub fn read_line(board: Board, i: usize, s: &Session, plot: u32, stores: &mut [u32]) -> ReadTurn
    requires { (i < 4) × ((ss : List Session) × (lines : List ℕ) × (get_or ss i no_session ≡ s.now) × Shown (desk ss board) stores.old lines) }
    ensures { (ss : List Session) (row lines : List ℕ) (g : Scene) → get_or ss i no_session ≡ s.now → Shows g (desk ss board) stores.old lines
        → Plays row g (Line.Read i plot) (record { desk = desk (set ss i (after_read s.now result.seen)) board; reply = result.reply }) stores.new lines }
{
    let office = board.place[i] as usize;
    match read_at(stores, office, s, plot) {
        Ok(PlotSeen { entry, seen }) => ReadTurn {
            seen: Some(seen),
            reply: reply_of(entry),
        },
        Err(refusal) => ReadTurn {
            seen: None,
            reply: Reply::Refused(u32::from(refusal)),
        },
    }
}

// `M`: a session goes to another office.
pub fn move_line(board: Board, i: u32, office: u32) -> BoardTurn
    ensures { (ss : List Session) (row stores lines : List ℕ) (g : Scene) → Shows g (desk ss board) stores lines → Plays row g (Line.Move i office) (record { desk = desk ss result.board; reply = result.reply }) stores lines }
{
    if i > 3 || office > 2 {
        return BoardTurn {
            board,
            reply: Reply::Odd,
        };
    }
    BoardTurn {
        board: with_place(board, i as usize, office),
        reply: Reply::Moved,
    }
}

// The frame of a slot is received by an office, on its part of the stores; the other parts stay.
pub fn receive_at(
    stores: &mut [u32],
    office: usize,
    lines: &[u32],
    slot: usize,
    out: &mut [u32],
) -> Result<usize, Refusal>
    requires { (office < 3) × (length stores.old ≡ 5241) × (slot + 104 ≤ length lines.now) × (get_or lines.now slot 0 ≤ 103) }
    ensures { ReceivePromise (part stores.old (1747 * office) 1747) (part lines.now (slot + 1) (get_or lines.now slot 0)) out.old (reply_of result) (part stores.new (1747 * office) 1747) out.new × (stores.new ≡ sets stores.old (1747 * office) (part stores.new (1747 * office) 1747)) }
{
    let from = slot + 1;
    let end = from + lines[slot] as usize;
    let a = 1747 * office;
    let b = a + 1747;
    hearing::receive::receive(&mut stores[a..b], &lines[from..end], out)
}

// A hearing that goes, of an office with a frame waiting, and with what it sends delivered: the board then; or why all stays.
fn try_receive(
    board: Board,
    office: usize,
    stores: &mut [u32],
    lines: &mut [u32],
    out: &mut [u32],
) -> Result<Board, Stay>
    requires { (office < 3) × (length out.old ≡ 1751) × (1 ≤ get_or board.count office 0) × ((ss : List Session) × Shown (desk ss board) stores.old lines.old) }
    ensures { (ss : List Session) (g : Scene) → Shows g (desk ss board) stores.old lines.old → Plays out.old g (Line.Receive office) (received ss office board result) stores.new lines.new }
{
    let slot = 104 * (32 * office + board.first[office]);
    let next = next_of(office);
    receive_ahead(stores, office, lines, slot, board.count[next])?;
    let words = receive_at(&mut *stores, office, lines, slot, &mut *out)?;
    let after = deliver(board, next, words, lines, out);
    Ok(without_oldest(after, office))
}

// `H`: an office, below 3, receives its oldest waiting frame. `out` is left with any words, as by `write_line`.
pub fn receive_line(
    board: Board,
    office: usize,
    stores: &mut [u32],
    lines: &mut [u32],
    out: &mut [u32],
) -> BoardTurn
    requires { (office < 3) × (length out.old ≡ 1751) × ((ss : List Session) × Shown (desk ss board) stores.old lines.old) }
    ensures { (ss : List Session) (g : Scene) → Shows g (desk ss board) stores.old lines.old → Plays out.old g (Line.Receive office) (record { desk = desk ss result.board; reply = result.reply }) stores.new lines.new }
{
    let count = board.count[office];
    if count == 0 {
        return BoardTurn {
            board,
            reply: Reply::NoFrame,
        };
    }
    match try_receive(board, office, stores, lines, out) {
        Ok(board) => BoardTurn {
            board,
            reply: Reply::Received(count as u32 - 1),
        },
        Err(stay) => BoardTurn {
            board,
            reply: Reply::from(stay),
        },
    }
}

// A line that no session plays; one of a session is taken for any other line.
pub fn play_other(
    board: Board,
    line: Line,
    stores: &mut [u32],
    lines: &mut [u32],
    out: &mut [u32],
) -> BoardTurn
    requires { (length out.old ≡ 1751) × ((ss : List Session) × Shown (desk ss board) stores.old lines.old) }
    ensures { (ss : List Session) (g : Scene) → Shows g (desk ss board) stores.old lines.old → Plays out.old g (sessionless line) (record { desk = desk ss result.board; reply = result.reply }) stores.new lines.new }
{
    match line {
        Line::Move(i, office) => move_line(board, i, office),
        Line::Receive(office) => {
            if office > 2 {
                return BoardTurn {
                    board,
                    reply: Reply::Odd,
                };
            }
            receive_line(board, office as usize, stores, lines, out)
        }
        _ => BoardTurn {
            board,
            reply: Reply::Odd,
        },
    }
}
