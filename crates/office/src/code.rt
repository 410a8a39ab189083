// What a call asks of store and session before anything else.
ghost use Rattle.std.specs.Prelude.{◌≡◌, true};
ghost use Rattle.causal.specs.Lists.{part};
ghost use Rattle.causal.specs.Sets.{subset_of};
ghost use Rattle.frame.specs.Refusals.{code_of};
ghost use Rattle.frame.specs.Sessions.{content_of};
ghost use Rattle.store.specs.Offices.{sound_store};
ghost use Rattle.office.specs.Decide.{start_code};

use frame::refusal::Refusal;
use frame::session::Session;

// 2: store unsound. 3: session unsound for it.
#[inline(always)]
pub fn start(store: &[u32], s: &Session) -> Result<(), Refusal>
    ensures { code_of result ≡ start_code store.now (content_of s.now) }
{
    if !store::sound::is_sound(store) {
        return Err(Refusal::Store);
    }
    if !frame::session::session_ok(s, store[0], store[2]) {
        return Err(Refusal::Content);
    }
    Ok(())
}

// Is every id of a set held?
pub fn held_all(store: &[u32], ids: [u32; 8]) -> bool
    requires { sound_store store.now ≡ true }
    ensures { result ≡ subset_of ids (part store.now 3 8) }
{
    let held = store::layout::set_at(store, 3);
    causal::set::subset(ids, held)
}
