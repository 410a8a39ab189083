// What an office would say to a call, asked only where the next office's line may not have room for what the call sends: a call that is made is
// never undone.
ghost use Rattle.std.specs.Prelude.{◌≡◌, List, ℕ, ◌+◌, ◌*◌, ◌<◌, ◌≤◌, get_or, length};
ghost use Rattle.causal.specs.Lists.{part};
ghost use Rattle.frame.specs.Frames.{frame_of};
ghost use Rattle.frame.specs.Sessions.{content_of};
ghost use Rattle.store.specs.Offices.{office_of};
ghost use Rattle.office.specs.Calls.{receive, receive_sends, write, write_sends};
ghost use Rattle.player.specs.Steps.{Foretells, stay_reply};

use crate::queue::hops_at;
use frame::refusal::Refusal;
use frame::session::Session;
use script::reply::Reply;

// Why a line leaves all as it is.
#[derive(Clone, Copy, Debug, PartialEq, Eq)]
pub enum Stay {
    Full, // it is not refused, and would leave more than 32 frames waiting
    Refused(Refusal),
}

impl From<Refusal> for Stay {
    ghost use Rattle.player.specs.declared.ahead.Stay.TheVariants.{Refused};

    ghost from_gives = { λ refusal stay. stay ≡ Refused refusal };

    fn from(refusal: Refusal) -> Stay {
        Stay::Refused(refusal)
    }
}

impl From<Stay> for Reply {
    ghost from_gives = { λ stay reply. reply ≡ stay_reply stay };

    fn from(stay: Stay) -> Reply {
        match stay {
            Stay::Full => Reply::Full,
            Stay::Refused(refusal) => Reply::Refused(u32::from(refusal)),
        }
    }
}

// A write sends 16 frames at most.
pub fn write_ahead(
    stores: &[u32],
    office: usize,
    s: &Session,
    plot: u32,
    value: u32,
    waiting: usize,
) -> Result<(), Stay>
    requires { (office < 3) × (length stores.now ≡ 5241) × (waiting ≤ 32) × (get_or (part stores.now (1747 * office) 1747) 0 0 ≡ 3) }
    ensures { (row : List ℕ) → length row ≡ 1751 → Foretells (write (part stores.now (1747 * office) 1747) (content_of s.now) plot value row).code
        (length (write_sends (office_of (part stores.now (1747 * office) 1747)) (content_of s.now) plot value)) waiting result }
{
    if waiting <= 16 {
        return Ok(());
    }
    let from = 1747 * office;
    let end = from + 1747;
    let frames = writing::forecast::write_forecast(&stores[from..end], s, plot, value)?;
    if 32 - waiting < frames {
        return Err(Stay::Full);
    }
    Ok(())
}

// A receiving, of the frame in a slot, sends it on, unless it has no hops left.
pub fn receive_ahead(
    stores: &[u32],
    office: usize,
    lines: &[u32],
    slot: usize,
    waiting: usize,
) -> Result<(), Stay>
    requires { (office < 3) × (length stores.now ≡ 5241) × (slot + 104 ≤ length lines.now) × (get_or lines.now slot 0 ≤ 103) × (waiting ≤ 32) }
    ensures { (row : List ℕ) → length row ≡ 1751 → Foretells (receive (part stores.now (1747 * office) 1747) (part lines.now (slot + 1) (get_or lines.now slot 0)) row).code
        (length (receive_sends (frame_of (part lines.now (slot + 1) (get_or lines.now slot 0))))) waiting result }
{
    if waiting < 32 {
        return Ok(());
    }
    let from = slot + 1;
    if hops_at(lines, from) == 0 {
        return Ok(());
    }
    let end = from + lines[slot] as usize;
    let a = 1747 * office;
    let b = a + 1747;
    hearing::forecast::receive_forecast(&stores[a..b], &lines[from..end], 1751)?;
    Err(Stay::Full)
}
