// The start: three offices opened, four fresh sessions at office 0, nothing waiting.
ghost use Rattle.std.specs.Prelude.{◌≡◌, List, ℕ, ◌*◌, ◌<◌, length};
ghost use Rattle.std.proofs.lemmas.List.Edits.{sets};
ghost use Rattle.causal.specs.Lists.{part};
ghost use Rattle.office.specs.Calls.{open_office};
ghost use Rattle.player.specs.Desks.{desk};
ghost use Rattle.player.specs.Play.{opening};
ghost use Rattle.player.specs.Shows.{Shows, stores_in};

use crate::board::Board;
use frame::session::{Session, blank_session};

// An office opened on its part of the stores.
fn open_at(stores: &mut [u32], office: u32)
    requires { (office < 3) × (length stores.old ≡ 5241) }
    ensures { (stores.new ≡ sets stores.old (1747 * office) (open_office 3 office 64 (part stores.old (1747 * office) 1747)).1) × (length (open_office 3 office 64 (part stores.old (1747 * office) 1747)).1 ≡ 1747) }
{
    let from = 1747 * (office as usize);
    let end = from + 1747;
    // Three offices, this one among them, 64 plots and 1,747 words: it is not refused.
    let _ = office::open::open_office(3, office, 64, &mut stores[from..end]);
}

#[derive(Clone, Copy)]
pub struct Opened {
    pub sessions: [Session; 4],
    pub board: Board,
}

// The whole ring. Nothing waits, so the slots of the lines may hold anything.
pub fn open_ring(stores: &mut [u32]) -> Opened
    requires { length stores.old ≡ 5241 }
    ensures { (lines : List ℕ) → length lines ≡ 9984 → Shows (opening (stores_in stores.old)) (desk result.sessions result.board) stores.new lines }
{
    open_at(&mut *stores, 0);
    open_at(&mut *stores, 1);
    open_at(&mut *stores, 2);
    let session = office::open::fresh_session(3).unwrap_or(blank_session());
    Opened {
        sessions: [session; 4],
        board: Board {
            place: [0; 4],
            first: [0; 3],
            count: [0; 3],
        },
    }
}
