// Refusals, by name. specs/Refusals.antt gives the number of each.
ghost use Rattle.std.specs.Prelude.{◌≡◌};
ghost use Rattle.frame.specs.Refusals.{number_of, code_of, Names};

use std::error::Error;
use std::fmt;

#[derive(Clone, Copy, Debug, PartialEq, Eq)]
pub enum Refusal {
    Settings = 1, // settings out of range
    Store = 2, // store unsound, or too short
    Content = 3, // session unsound, or content that no frame or token has
    Plot = 4, // plot out of range, or too many plots
    Value = 5, // value too great
    OfficeFull = 6, // the office has made 32 entries
    SessionFull = 7, // the session carries 16 entries, or over 16 would be carried
    Room = 8, // row too short
    Format = 9, // not a frame or token for this ring and these plots
    Unmade = 10, // an entry names this office and was not made here
    Different = 11, // an entry is held with other content, or one name is carried with two
    Missing = 12, // a dependency or a read id is not held
}

// The number of a refusal.
impl From<Refusal> for u32 {
    ghost from_gives = { λ refusal n. n ≡ number_of refusal };

    #[tactic(auto, unfolding(crate::specs::Refusals::number_of))]
    fn from(refusal: Refusal) -> u32 {
        refusal as u32
    }
}

// A number that no refusal has.
#[derive(Clone, Copy, Debug, PartialEq, Eq)]
pub struct UnknownRefusal(pub u32);

// The refusal of a number.
impl TryFrom<u32> for Refusal {
    type Error = UnknownRefusal;

    ghost try_from_gives = { Names };

    #[tactic(auto, using(crate::proofs::Refusals::unknown), unfolding(crate::specs::Refusals::number_of))]
    fn try_from(number: u32) -> Result<Self, UnknownRefusal> {
        match number {
            1 => Ok(Refusal::Settings),
            2 => Ok(Refusal::Store),
            3 => Ok(Refusal::Content),
            4 => Ok(Refusal::Plot),
            5 => Ok(Refusal::Value),
            6 => Ok(Refusal::OfficeFull),
            7 => Ok(Refusal::SessionFull),
            8 => Ok(Refusal::Room),
            9 => Ok(Refusal::Format),
            10 => Ok(Refusal::Unmade),
            11 => Ok(Refusal::Different),
            12 => Ok(Refusal::Missing),
            _ => Err(UnknownRefusal(number)),
        }
    }
}

// A refusal in words, for people: the texts of burial_refusal_text.
impl fmt::Display for Refusal {
    fn fmt<W: fmt::Write>(&self, f: &mut fmt::Formatter<W>) -> fmt::Result {
        f.write_str(match self {
            Refusal::Settings => "ring size, own office or plots out of range",
            Refusal::Store => "the store is not sound, or too short",
            Refusal::Content =>
                "a session is not sound for this ring, or no frame or token has this content",
            Refusal::Plot => "a plot is out of range, or there are more than 16",
            Refusal::Value => "the value is too great",
            Refusal::OfficeFull => "the office has made its 32 entries",
            Refusal::SessionFull => "over 16 entries would be carried",
            Refusal::Room => "a row is too short",
            Refusal::Format => "the words are no frame or token of this ring",
            Refusal::Unmade => "an entry names this office and was not made here",
            Refusal::Different => "an entry is held or carried with other content",
            Refusal::Missing => "an entry that was read or is depended on is not held",
        })
    }
}

impl Error for Refusal {}

impl fmt::Display for UnknownRefusal {
    fn fmt<W: fmt::Write>(&self, f: &mut fmt::Formatter<W>) -> fmt::Result {
        f.write_str("no refusal of this library")
    }
}

impl Error for UnknownRefusal {}

// The number of an answer: 0 where nothing is refused.
#[tactic(auto, unfolding(crate::specs::Refusals::code_of))]
pub fn code_of<T>(answer: &Result<T, Refusal>) -> u32
    ensures { result ≡ code_of answer.now }
{
    match answer {
        Ok(_) => 0,
        Err(refusal) => u32::from(*refusal),
    }
}
