// A line of a script: what it asks for.
#![tactic(auto, using(crate::proofs::Lines::below_no, crate::proofs::Lines::below_yes), unfolding(crate::specs::Lines::line_in, crate::specs::Steps::number_of, causal::specs::Tests::both, causal::specs::Lists::eq_words))]

ghost use Rattle.std.specs.Prelude.{◌≡◌, ◌∷◌, [], unwrap_or};
ghost use Rattle.script.specs.Lines.{line_in, line_of};

use crate::field::{below, number};

const SESSIONS: u32 = 4;

const OFFICES: u32 = 3;

#[derive(Clone, Copy, PartialEq, Eq, Debug)]
pub enum Line {
    // W session plot value
    Write(u32, u32, u32),
    // R session plot
    Read(u32, u32),
    // M session office
    Move(u32, u32),
    // H office
    Receive(u32),
    // any other line
    Other,
}

// A letter and one field.
fn one(letter: u8, office: &[u8]) -> Option<Line>
    ensures { unwrap_or result Line.Other ≡ line_in ((letter ∷ []) ∷ office.now ∷ []) }
{
    match letter {
        b'H' => Some(Line::Receive(below(OFFICES, office)?)),
        _ => None,
    }
}

// A letter and two fields.
fn two(letter: u8, s: &[u8], x: &[u8]) -> Option<Line>
    ensures { unwrap_or result Line.Other ≡ line_in ((letter ∷ []) ∷ s.now ∷ x.now ∷ []) }
{
    match letter {
        b'R' => Some(Line::Read(below(SESSIONS, s)?, number(x)?)),
        b'M' => Some(Line::Move(below(SESSIONS, s)?, below(OFFICES, x)?)),
        _ => None,
    }
}

// A letter and three fields.
fn three(letter: u8, s: &[u8], plot: &[u8], value: &[u8]) -> Option<Line>
    ensures { unwrap_or result Line.Other ≡ line_in ((letter ∷ []) ∷ s.now ∷ plot.now ∷ value.now ∷ []) }
{
    match letter {
        b'W' => Some(Line::Write(below(SESSIONS, s)?, number(plot)?, number(value)?)),
        _ => None,
    }
}

// What the line asks for; None for any other line.
fn asked(bytes: &[u8]) -> Option<Line>
    ensures { unwrap_or result Line.Other ≡ line_of bytes.now }
{
    let mut fields = bytes.split(|b| *b == b' ');
    let [letter] = fields.next()? else {
        return None;
    };
    let first = fields.next()?;
    match (fields.next(), fields.next(), fields.next()) {
        (None, _, _) => one(*letter, first),
        (Some(second), None, _) => two(*letter, first, second),
        (Some(second), Some(third), None) => three(*letter, first, second, third),
        _ => None,
    }
}

// The line of these bytes, its newline not among them.
pub fn parse_line(bytes: &[u8]) -> Line
    ensures { result ≡ line_of bytes.now }
{
    asked(bytes).unwrap_or(Line::Other)
}
