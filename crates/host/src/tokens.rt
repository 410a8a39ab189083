// Tokens for a host.
ghost use Rattle.frame.specs.Promises.{ReadTokenPromise, WriteTokenPromise};

use crate::answer::{SessionAnswer, WordsAnswer};
use frame::session::{Session, blank_session};

// 01: read a slip.
#[tactic(auto, unfolding(frame::specs::Refusals::code_of))]
pub fn burial_read_token(words: &[u32], offices: u32, plots: u32) -> SessionAnswer
    ensures { ReadTokenPromise words.now offices plots result.refusal result.session }
{
    let session = match frame::token::read_token(words, offices, plots) {
        Ok(session) => session,
        Err(refusal) => {
            return SessionAnswer {
                refusal: u32::from(refusal),
                session: blank_session(),
            };
        }
    };
    SessionAnswer {
        refusal: 0,
        session,
    }
}

// 01: write a slip.
#[inline(always)]
pub fn burial_write_token(session: Session, out: &mut [u32]) -> WordsAnswer
    ensures { WriteTokenPromise session out.old (record { code = result.refusal; words = result.words }) out.new }
{
    frame::token::write_token(session, out).into()
}
