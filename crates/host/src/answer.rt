// Answers as C has them: a refusal number, 0 for none, and the values beside it.
ghost use Rattle.std.specs.Prelude.{◌≡◌};
ghost use Rattle.std.specs.Result.{result_unwrap_or};
ghost use Rattle.frame.specs.Refusals.{code_of, reply_of};

use frame::entry::{Entry, Frame};
use frame::refusal::{Refusal, code_of};
use frame::session::Session;

#[repr(C)]
#[derive(Clone, Copy)]
pub struct FrameAnswer {
    pub refusal: u32,
    pub frame: Frame,
}

#[repr(C)]
#[derive(Clone, Copy)]
pub struct WordsAnswer {
    pub refusal: u32,
    pub words: usize,
}

#[repr(C)]
#[derive(Clone, Copy)]
pub struct PlotAnswer {
    pub refusal: u32,
    pub found: u32,
    pub entry: Entry,
    pub session: Session,
}

#[repr(C)]
#[derive(Clone, Copy)]
pub struct WroteAnswer {
    pub refusal: u32,
    pub words: usize,
    pub session: Session,
}

#[repr(C)]
#[derive(Clone, Copy)]
pub struct SessionAnswer {
    pub refusal: u32,
    pub session: Session,
}

#[repr(C)]
#[derive(Clone, Copy)]
pub struct SettingsAnswer {
    pub refusal: u32,
    pub offices: u32,
    pub own: u32,
    pub plots: u32,
}

// What a call that writes words answers.
impl From<Result<usize, Refusal>> for WordsAnswer {
    ghost from_gives = { λ answer a. record { code = a.refusal; words = a.words } ≡ reply_of answer };

    fn from(answer: Result<usize, Refusal>) -> WordsAnswer {
        WordsAnswer {
            refusal: code_of(&answer),
            words: answer.unwrap_or(0),
        }
    }
}

// What a call that hands back a session answers: `left` on a refusal.
pub fn session_answer(answer: Result<Session, Refusal>, left: Session) -> SessionAnswer
    ensures { (result.refusal ≡ code_of answer) × (result.session ≡ result_unwrap_or answer left) }
{
    let refusal = code_of(&answer);
    SessionAnswer {
        refusal,
        session: answer.unwrap_or(left),
    }
}
