// Standard input and output, where a call that a signal stopped, or that would have to wait, is made again. A proved loop has to
// end: it counts its tries down from a number that no run uses up. Reading and writing stay two loops: a shared one would have to be
// told, try by try, what a closure leaves of a reader or a writer. The handle stands beside them, as in std's calls.
ghost use Rattle.std.specs.Prelude.{◌≡◌, ◌⊎◌, ◌+◌, ◌≤◌, ◌<◌, IsTrue, length, take};
ghost use Rattle.std.specs.Io.KnownBytes.{Appends, Consumes};
ghost use Rattle.std.specs.IoError.{error_kind};

use std::io::{Error, ErrorKind, Read, Write};
use std::rt::Clock;
use std::thread;
use std::time::Duration;

// Reads a block to the start of the input's room and answers its length: 0 at the end of the input, or where no more can be read.
pub fn read_block<R: Read>(rt: &(impl Clock + Eprint), reader: &mut R, input: &mut [u8]) -> usize
    ensures within { result ≤ length input.new }
    ensures prefix { result ≡ length (take result input.new) }
    ensures bytes { Consumes (R.remaining reader.old) (R.remaining reader.new) (take result input.new) }
{
    let mut tries = u64::MAX;
    while tries > 0 {
        match reader.read(input) {
            Ok(n) => return n,
            Err(e) => tries = tries_left(rt, tries, &e),
        }
    }
    // Once more, also where waiting does not help.
    if let Ok(n) = reader.read(input) {
        return n;
    }
    let _ = eprintln!(rt; "run_script: the input was cut");
    0
}

// Writes out all of the bytes and answers true, or says on standard error that they were cut. Each turn goes on by as many bytes as
// the writer took, which no iterator tells.
pub fn write_all<W: Write>(rt: &(impl Clock + Eprint), writer: &mut W, bytes: &[u8]) -> bool
    ensures all { IsTrue result → Appends (W.contents writer.old) (W.contents writer.new) bytes.now }
{
    let mut done = 0;
    while done < bytes.len() {
        let more = write_some(rt, writer, &bytes[done..]);
        if more == 0 {
            let _ = eprintln!(rt; "run_script: the output was cut");
            return false;
        }
        done += more;
    }
    true
}

// Writes out some of the first bytes and answers how many: 0 where the output takes no more.
fn write_some<W: Write>(rt: &impl Clock, writer: &mut W, bytes: &[u8]) -> usize
    ensures within { result ≤ length bytes.now }
    ensures bytes { Appends (W.contents writer.old) (W.contents writer.new) (take result bytes.now) }
{
    let mut tries = u64::MAX;
    while tries > 0 {
        match writer.write(bytes) {
            Ok(n) => return n,
            Err(e) => tries = tries_left(rt, tries, &e),
        }
    }
    // Once more, also where waiting does not help.
    writer.write(bytes).unwrap_or(0)
}

// How many tries are left after one that failed: one fewer, after a pause, or none where waiting does not help. The tries are counted
// by hand, and not by a `for`, since the clauses `fewer` and `again` say of a single failure how many are left.
fn tries_left(rt: &impl Clock, tries: u64, error: &Error) -> u64
    requires { 0 < tries }
    ensures fewer { result < tries }
    ensures again { ((error_kind error.now ≡ ErrorKind.Interrupted) ⊎ (error_kind error.now ≡ ErrorKind.WouldBlock))
        → tries ≡ result + 1 }
{
    let kind = error.kind();
    if kind != ErrorKind::Interrupted && kind != ErrorKind::WouldBlock {
        return 0;
    }
    pause(rt);
    tries - 1
}

// Waits for a thousandth of a second.
fn pause(rt: &impl Clock) {
    thread::sleep(rt, Duration::from_millis(1));
}
