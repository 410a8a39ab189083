// The join of two sessions for a host.
ghost use Rattle.joining.specs.Promises.{JoinPromise};

use frame::session::Session;
use host::answer::SessionAnswer;

// 02: one errand, two people.
#[unsafe(no_mangle)]
pub extern "C" fn burial_join_sessions(
    offices: u32,
    plots: u32,
    first: Session,
    second: Session,
) -> SessionAnswer
    ensures { JoinPromise offices plots first second result.refusal result.session }
{
    host::sessions::burial_join_sessions(offices, plots, first, second)
}
