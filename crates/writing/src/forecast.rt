// What a write would say, asked before it is made: nothing is changed.
ghost use Rattle.std.specs.Prelude.{◌≡◌, IfOk, length};
ghost use Rattle.causal.specs.Codes.{check};
ghost use Rattle.frame.specs.Refusals.{code_of};
ghost use Rattle.frame.specs.Sessions.{content_of};
ghost use Rattle.store.specs.Offices.{office_of, sound_store};
ghost use Rattle.office.specs.Calls.{write_sends};
ghost use Rattle.writing.specs.Writes.{early_code, outside};

use frame::entry::{Entry, id_of};
use frame::refusal::Refusal;
use frame::session::{Session, own_writes};

// The frames of the own writes: one for each that is not held.
fn own_frames(held: [u32; 8], own: &[Entry]) -> usize
    ensures { result ≡ outside held own.now }
{
    own.iter()
        .filter(|e| !causal::set::contains(held, id_of(e)))
        .count()
}

// The refusal of a write but for the room, or how many frames it sends.
pub fn write_forecast(store: &[u32], s: &Session, plot: u32, value: u32) -> Result<usize, Refusal>
    ensures code { code_of result ≡ check (sound_store store.now) 2 (early_code (office_of store.now) (content_of s.now) plot value) }
    ensures frames { IfOk result (λ n. n ≡ length (write_sends (office_of store.now) (content_of s.now) plot value)) }
{
    crate::write::may_write(store, s, plot, value)?;
    let held = store::layout::set_at(store, 3);
    Ok(own_frames(held, own_writes(s)) + 1)
}
