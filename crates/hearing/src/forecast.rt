// What a hearing would say, asked before it is made: nothing is changed.
ghost use Rattle.std.specs.Prelude.{◌≡◌, List, ℕ, length};
ghost use Rattle.frame.specs.Refusals.{code_of};
ghost use Rattle.office.specs.Calls.{receive};

use frame::refusal::Refusal;

// The refusal of a receive that has a row of so many words.
pub fn receive_forecast(store: &[u32], frame: &[u32], room: usize) -> Result<(), Refusal>
    ensures { (row : List ℕ) → length row ≡ room → code_of result ≡ (receive store.now frame.now row).code }
{
    if !store::sound::is_sound(store) {
        return Err(Refusal::Store);
    }
    let f = frame::reader::frame_from(frame, store[0], store[2]).ok_or(Refusal::Format)?;
    let held = store::layout::set_at(store, 3);
    crate::receive::may_take(store, held, &f, frame.len(), room)
}
