// The join of two sessions (02: of two errands).
ghost use Rattle.std.specs.Prelude.{true, [], ◌++◌, ◌≡◌, ◌+◌, ◌≤◌, length, take};
ghost use Rattle.std.specs.Result.{result_unwrap_or};
ghost use Rattle.causal.specs.Clocks.{join};
ghost use Rattle.causal.specs.Sets.{is_in, unite};
ghost use Rattle.frame.specs.Entries.{id_of};
ghost use Rattle.frame.specs.Frames.{ring_ok};
ghost use Rattle.frame.specs.Refusals.{code_of};
ghost use Rattle.frame.specs.Sessions.{content_of, filled, fresh_content, leave_out, session_of, session_ok};
ghost use Rattle.joining.specs.Promises.{JoinPromise};

use frame::entry::{Entry, blank_entry};
use frame::refusal::Refusal;
use frame::session::{Session, own_writes};

// The own writes of both sessions, each once.
#[derive(Clone, Copy)]
struct OwnOfBoth {
    count: usize,
    own: [Entry; 16],
}

// Entries, and blanks behind them.
fn with_blanks(own: &[Entry]) -> [Entry; 16]
    requires { length own.now ≤ 16 }
    ensures { result ≡ filled own.now }
{
    let mut row = [blank_entry(); 16];
    row[..own.len()].copy_from_slice(own);
    row
}

// The first's own writes, then those of the second whose ids are not in the set, and blanks behind them; and how many they are. Of more than 16 the row
// says nothing. The ids of the first `front` are all in the set.
fn both_own(first: &[Entry], ids: [u32; 8], second: &[Entry], front: usize) -> OwnOfBoth
    requires { (length first.now ≤ 16) × (front ≤ length second.now) × (length second.now ≤ 16) × (leave_out (λ e. is_in ids (id_of e)) (take front second.now) ≡ []) }
    ensures { (result.count ≡ length first.now + length (leave_out (λ e. is_in ids (id_of e)) second.now)) × (result.count ≤ 16 → result.own ≡ filled (first.now ++ leave_out (λ e. is_in ids (id_of e)) second.now)) }
{
    let mut own = with_blanks(first);
    let mut count = first.len();
    for e in &second[front..] {
        if !crate::alike::among(e, ids) {
            if count < 16 {
                own[count] = *e;
            }
            count += 1;
        }
    }
    OwnOfBoth { count, own }
}

// The session that is handed back, with these own writes.
fn joined(first: &Session, second: &Session, count: usize, own: [Entry; 16]) -> Session
    ensures { (result.offices ≡ first.now.offices) × (result.clock ≡ join first.now.clock second.now.clock) × (result.read ≡ unite first.now.read second.now.read) × (result.count ≡ count) × (result.own ≡ own) }
{
    Session {
        offices: first.offices,
        clock: causal::clock::join(first.clock, second.clock),
        read: causal::set::union(first.read, second.read),
        count,
        own,
    }
}

// The join of two sound sessions.
#[inline(never)]
fn join_sound(
    offices: u32,
    plots: u32,
    first: &Session,
    second: &Session,
) -> Result<Session, Refusal>
    requires { (ring_ok offices plots ≡ true) × (session_ok offices plots (content_of first.now) ≡ true) × (session_ok offices plots (content_of second.now) ≡ true) }
    ensures { JoinPromise offices plots first.now second.now (code_of result) (result_unwrap_or result (session_of (fresh_content 0))) }
{
    let first_own = own_writes(first);
    let second_own = own_writes(second);
    let front = crate::alike::same_front(first_own, second_own);
    // All of the second is the first's: nothing more is compared, and nothing is new.
    if front == second.count {
        return Ok(joined(first, second, first.count, with_blanks(first_own)));
    }
    let ids = frame::session::ids_of(first_own);
    if !crate::alike::all_alike(second_own, front, ids, first_own) {
        return Err(Refusal::Different);
    }
    let both = both_own(first_own, ids, second_own, front);
    if both.count > 16 {
        return Err(Refusal::SessionFull);
    }
    Ok(joined(first, second, both.count, both.own))
}

// 02: one errand, two people.
pub fn join_sessions(
    offices: u32,
    plots: u32,
    first: Session,
    second: Session,
) -> Result<Session, Refusal>
    ensures { JoinPromise offices plots first second (code_of result) (result_unwrap_or result (session_of (fresh_content 0))) }
{
    if !frame::entry::ring_ok(offices, plots) {
        return Err(Refusal::Settings);
    }
    if !frame::session::session_ok(&first, offices, plots)
        || !frame::session::session_ok(&second, offices, plots)
    {
        return Err(Refusal::Content);
    }
    join_sound(offices, plots, &first, &second)
}
