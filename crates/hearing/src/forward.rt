// A frame that was heard goes on to the next office: its words are copied, but for head and check, which are made anew.
ghost use Rattle.std.specs.Prelude.{◌≡◌, ◌≤◌, length};
ghost use Rattle.frame.specs.Frames.{frame_of, frame_words};
ghost use Rattle.frame.specs.Calls.{laid};
ghost use Rattle.office.specs.Calls.{onward};

// One hop, in bits 15 to 12 of the head.
const ONE_HOP: u32 = 0x1000;

// The words of a frame with one fewer still to hear, straight from its row to the out row. The check goes down as the head does, modulo 2^28.
pub fn put_onward(frame: &[u32], out: &mut [u32])
    requires { (frame.now ≡ frame_words (frame_of frame.now)) × (1 ≤ (frame_of frame.now).hops) × (length frame.now ≤ length out.old) }
    ensures { out.new ≡ laid (frame_words (onward (frame_of frame.now))) out.old }
{
    let end = frame.len() - 1;
    causal::row::copy_words(frame, 0, &mut *out, 0, frame.len());
    out[0] = frame[0] - ONE_HOP;
    out[end] = 0xF000_0000 + (frame[end] - ONE_HOP) % 0x1000_0000;
}
