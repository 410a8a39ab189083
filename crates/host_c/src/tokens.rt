// Tokens for a host.
ghost use Rattle.frame.specs.Promises.{ReadTokenPromise, WriteTokenPromise};

use frame::session::Session;
use host::answer::{SessionAnswer, WordsAnswer};

// 01: read a slip.
#[unsafe(no_mangle)]
pub extern "C" fn burial_read_token(words: &[u32], offices: u32, plots: u32) -> SessionAnswer
    ensures { ReadTokenPromise words.now offices plots result.refusal result.session }
{
    host::tokens::burial_read_token(words, offices, plots)
}

// 01: write a slip.
#[unsafe(no_mangle)]
pub extern "C" fn burial_write_token(session: Session, out: &mut [u32]) -> WordsAnswer
    ensures { WriteTokenPromise session out.old (record { code = result.refusal; words = result.words }) out.new }
{
    host::tokens::burial_write_token(session, out)
}
