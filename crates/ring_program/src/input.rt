// Bytes of standard input.
ghost use Rattle.std.specs.Prelude.{◌≡◌, ◌+◌, ◌≤◌, length};
ghost use Rattle.std.specs.Io.KnownBytes.{ReadConsumes};
ghost use Rattle.std.specs.Result.{result_unwrap_or};

use std::io;
use std::io::Read;

// The one place that reads: how many bytes came, none at the input's end. Those that may still come, `left`, are counted as they come, so that none is
// dropped on the way to the player. A read that a signal interrupts has failed. Over any reader, since only of one whose bytes are known can a clause
// say that what comes is what it gave, and that a read that failed is not taken for the end.
pub fn read_chunk<R: Read>(stdin: &mut R, input: &mut [u8], left: &mut u64) -> io::Result<usize>
    requires { (length input.old ≡ 4096) × (4096 ≤ left.old) }
    ensures { (result_unwrap_or result 0 ≤ 4096) × (result_unwrap_or result 0 + left.new ≡ left.old) × ReadConsumes (R.remaining stdin.old) (R.remaining stdin.new) result input.new }
{
    let got = stdin.read(&mut *input);
    *left -= got.unwrap_or(0) as u64;
    got
}
