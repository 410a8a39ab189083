// Bytes of standard output and standard error.
use std::io::Write;

// A write that took nothing or failed.
#[derive(Clone, Copy, Debug, PartialEq, Eq)]
pub struct Untaken;

// Writes all of `bytes`, or stops at the first write that takes nothing or fails, as one does that a signal interrupts: std's own write_all would try that
// one again. A while: a write says how much it took.
pub fn write_all<W: Write>(out: &mut W, bytes: &[u8]) -> Result<(), Untaken> {
    let mut done = 0;
    while done < bytes.len() {
        let n = out.write(&bytes[done..]).unwrap_or(0);
        if n == 0 {
            return Err(Untaken);
        }
        done += n;
    }
    Ok(())
}
