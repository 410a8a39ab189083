// The join of two sessions for a host.
ghost use Rattle.joining.specs.Promises.{JoinPromise};

use crate::answer::{SessionAnswer, session_answer};
use frame::session::{Session, blank_session};

// 02: one errand, two people.
#[inline(always)]
pub fn burial_join_sessions(
    offices: u32,
    plots: u32,
    first: Session,
    second: Session,
) -> SessionAnswer
    ensures { JoinPromise offices plots first second result.refusal result.session }
{
    let joined = joining::join::join_sessions(offices, plots, first, second);
    session_answer(joined, blank_session())
}
