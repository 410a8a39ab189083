// To open an office, and fresh sessions.
ghost use Rattle.std.specs.Prelude.{◌≡◌};
ghost use Rattle.std.specs.Result.{result_unwrap_or};
ghost use Rattle.frame.specs.Sessions.{session_of, fresh_content};
ghost use Rattle.office.specs.Promises.{FreshPromise, OpenPromise};
ghost use Rattle.frame.specs.Refusals.{code_of};

use frame::refusal::Refusal;
use frame::session::Session;

// 01: open an office.
pub fn open_office(offices: u32, own: u32, plots: u32, store: &mut [u32]) -> Result<(), Refusal>
    ensures { OpenPromise offices own plots store.old (code_of result) store.new }
{
    if !store::layout::settings_ok(offices, own, plots) {
        return Err(Refusal::Settings);
    }
    if store::layout::need_of(offices) > store.len() {
        return Err(Refusal::Store);
    }
    store::empty::lay_empty(store, offices, own, plots);
    Ok(())
}

// 01: a fresh errand.
#[tactic(auto, unfolding(crate::specs::Calls::fresh_code, crate::specs::Answers::fresh_by, causal::specs::Codes::check, causal::specs::Tests::both, frame::specs::Refusals::code_of, frame::specs::Refusals::number_of, frame::specs::Sessions::session_of))]
pub fn fresh_session(offices: u32) -> Result<Session, Refusal>
    ensures { FreshPromise offices (code_of result) (result_unwrap_or result (session_of (fresh_content 0))) }
{
    if offices < 2 || offices > 8 {
        return Err(Refusal::Settings);
    }
    Ok(Session {
        offices,
        ..frame::session::blank_session()
    })
}
