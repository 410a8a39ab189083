// Frames for a host: as bytes, and as words.
ghost use Rattle.std.specs.Prelude.{◌≡◌, ◌+◌, ◌*◌, ◌≤◌, length};
ghost use Rattle.causal.specs.Lists.{tab};
ghost use Rattle.frame.specs.Calls.{read_frame_code};
ghost use Rattle.host.specs.Bytes.{word_at, CheckPromise};
ghost use Rattle.frame.specs.Promises.{ReadFramePromise, WriteFramePromise};
ghost use Rattle.frame.specs.Refusals.{code_of};

use crate::answer::{FrameAnswer, WordsAnswer};
use frame::entry::{Frame, blank_frame, ring_ok};
use frame::reader::read_frame;
use frame::refusal::{Refusal, code_of};

// A frame has at most 267 words.
const MOST: usize = 267;

// Word i of a row of bytes, lowest byte first.
fn word_at(bytes: &[u8], i: usize) -> u32
    requires { 4 * i + 4 ≤ length bytes.now }
    ensures { result ≡ word_at bytes.now i }
{
    let at = 4 * i;
    u32::from_le_bytes([bytes[at], bytes[at + 1], bytes[at + 2], bytes[at + 3]])
}

// The n words that the bytes make are read. An index loop: one word stands for four bytes.
fn read_words(bytes: &[u8], n: usize, offices: u32, plots: u32) -> Result<Frame, Refusal>
    requires { (n ≤ 267) × (4 * n ≤ length bytes.now) }
    ensures { code_of result ≡ read_frame_code offices plots (tab n (word_at bytes.now)) }
{
    let mut row = [0u32; MOST];
    for i in 0..n {
        row[i] = word_at(bytes, i);
    }
    read_frame(&row[..n], offices, plots)
}

fn read_bytes(bytes: &[u8], offices: u32, plots: u32) -> Result<Frame, Refusal>
    ensures { CheckPromise bytes.now offices plots (code_of result) }
{
    if !ring_ok(offices, plots) {
        return Err(Refusal::Settings);
    }
    let count = bytes.len();
    if count % 4 != 0 {
        return Err(Refusal::Format);
    }
    if count / 4 > MOST {
        return Err(Refusal::Format);
    }
    read_words(bytes, count / 4, offices, plots)
}

// Are these bytes a frame for this ring and these plots? 0 for yes, else the refusal: 1 for the settings, then 9.
#[inline(always)]
pub fn burial_check_frame(bytes: &[u8], offices: u32, plots: u32) -> u32
    ensures { CheckPromise bytes.now offices plots result }
{
    code_of(&read_bytes(bytes, offices, plots))
}

// 01: read a frame.
#[inline(always)]
pub fn burial_read_frame(words: &[u32], offices: u32, plots: u32) -> FrameAnswer
    ensures { ReadFramePromise words.now offices plots result.refusal result.frame }
{
    let frame = match read_frame(words, offices, plots) {
        Ok(frame) => frame,
        Err(refusal) => {
            return FrameAnswer {
                refusal: u32::from(refusal),
                frame: blank_frame(),
            };
        }
    };
    FrameAnswer { refusal: 0, frame }
}

// 01: write a frame.
#[inline(always)]
pub fn burial_write_frame(frame: Frame, out: &mut [u32]) -> WordsAnswer
    ensures { WriteFramePromise frame out.old (record { code = result.refusal; words = result.words }) out.new }
{
    frame::writer::write_frame(frame, out).into()
}
