// The player's board: where each session is, and the lines of waiting frames. The four sessions stand beside it, with whoever plays the lines: they
// are large, and a line changes one of them at most.
ghost use Rattle.std.specs.Prelude.{◌≡◌, List, ◌+◌, ◌-◌, ◌<◌, ◌≤◌, get_or};
ghost use Rattle.frame.specs.declared.session.Session.{Session};
ghost use Rattle.player.specs.Desks.{desk, with_frames, with_place, without_oldest};

use frame::entry::Entry;
use office::note::Seen;
use script::reply::Reply;

#[derive(Clone, Copy)]
pub struct Board {
    pub place: [u32; 4], // the office of each session's next call
    pub first: [usize; 3], // for each office, the slot of its oldest waiting frame
    pub count: [usize; 3], // and how many wait
}

// What a line that leaves the sessions alone did.
#[derive(Clone, Copy)]
pub struct BoardTurn {
    pub board: Board,
    pub reply: Reply,
}

// What a reading did: what its session has seen then, if it was not refused.
#[derive(Clone, Copy)]
pub struct ReadTurn {
    pub seen: Option<Seen>,
    pub reply: Reply,
}

// What a write did: the entry that its session has then, if it was done.
#[derive(Clone, Copy)]
pub struct WriteTurn {
    pub board: Board,
    pub entry: Option<Entry>,
    pub reply: Reply,
}

pub fn with_place(board: Board, i: usize, office: u32) -> Board
    requires { i < 4 }
    ensures { (ss : List Session) → desk ss result ≡ with_place (desk ss board) i office }
{
    let mut b = board;
    b.place[i] = office;
    b
}

// More frames wait at an office.
pub fn with_frames(board: Board, office: usize, frames: usize) -> Board
    requires { (office < 3) × (get_or board.count office 0 + frames ≤ 32) }
    ensures { (ss : List Session) → desk ss result ≡ with_frames (desk ss board) office frames }
{
    let mut b = board;
    b.count[office] += frames;
    b
}

// The oldest frame of an office waits no longer.
pub fn without_oldest(board: Board, office: usize) -> Board
    requires { (office < 3) × (get_or board.first office 0 < 32) × (1 ≤ get_or board.count office 0) }
    ensures { (ss : List Session) → desk ss result ≡ without_oldest (desk ss board) office }
{
    let mut b = board;
    b.first[office] = (b.first[office] + 1) % 32;
    b.count[office] -= 1;
    b
}
