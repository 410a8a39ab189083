// The words that a store needs.
ghost use Rattle.office.specs.Promises.{NeedPromise};
ghost use Rattle.frame.specs.Refusals.{reply_of};

use frame::refusal::Refusal;

// 01: the call that gives the store's need.
#[tactic(auto, unfolding(crate::specs::Calls::store_need, frame::specs::Refusals::reply_of, frame::specs::Refusals::number_of))]
pub fn store_need(offices: u32, own: u32, plots: u32) -> Result<usize, Refusal>
    ensures { NeedPromise offices own plots (reply_of result) }
{
    if !store::layout::settings_ok(offices, own, plots) {
        return Err(Refusal::Settings);
    }
    Ok(store::layout::need_of(offices))
}
