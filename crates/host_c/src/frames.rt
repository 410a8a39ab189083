// Frames for a host: as bytes, and as words.
ghost use Rattle.host.specs.Bytes.{CheckPromise};
ghost use Rattle.frame.specs.Promises.{ReadFramePromise, WriteFramePromise};

use frame::entry::Frame;
use host::answer::{FrameAnswer, WordsAnswer};

// Are these bytes a frame for this ring and these plots? 0 for yes, else the refusal: 1 for the settings, then 9.
#[unsafe(no_mangle)]
pub extern "C" fn burial_check_frame(bytes: &[u8], offices: u32, plots: u32) -> u32
    ensures { CheckPromise bytes.now offices plots result }
{
    host::frames::burial_check_frame(bytes, offices, plots)
}

// 01: read a frame.
#[unsafe(no_mangle)]
pub extern "C" fn burial_read_frame(words: &[u32], offices: u32, plots: u32) -> FrameAnswer
    ensures { ReadFramePromise words.now offices plots result.refusal result.frame }
{
    host::frames::burial_read_frame(words, offices, plots)
}

// 01: write a frame.
#[unsafe(no_mangle)]
pub extern "C" fn burial_write_frame(frame: frame::entry::Frame, out: &mut [u32]) -> WordsAnswer
    ensures { WriteFramePromise frame out.old (record { code = result.refusal; words = result.words }) out.new }
{
    host::frames::burial_write_frame(frame, out)
}
