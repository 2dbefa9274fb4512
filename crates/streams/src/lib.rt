// internal: for the programs of this repository. What a program reads and writes: an input to its end, an output in full. What the system refuses is said
// on standard error, in the system's own words. No contract can say what the system gives or takes, so the work of a program is in functions on slices; of a
// reader and a writer whose bytes are known the contracts say that none is lost and none made up.
#![tactic(auto)]

ghost use Rattle.std.specs.Prelude.{◌≡◌, ◌+◌, ◌<◌, ◌≤◌, length, take, drop, IfOk, OnOk};
ghost use Rattle.std.specs.Io.KnownBytes.{Appends, Consumes, IsAtEnd, ReadConsumes};
ghost use Rattle.streams.specs.Input.{len_read};

use std::io;
use std::io::{Cursor, ErrorKind, Read, Write};

// A read that failed, which has been said. What could be read before stands at the front of the buffer.
#[derive(Clone, Copy)]
pub struct Unread {
    pub len: usize,
}

// A write that failed, which has been said where there is someone to tell.
#[derive(Clone, Copy)]
pub struct Unwritten;

// Reads until the input ends or `buf` is full; how many bytes stand at the front of `buf`. `what` names the input where a read fails, which `errors` is told.
pub fn read_input<R: Read, E: Write>(
    from: &mut R,
    buf: &mut [u8],
    what: &[u8],
    errors: &mut E,
) -> Result<usize, Unread>
    ensures within { len_read result ≤ length buf.new }
    ensures bytes { Consumes (R.remaining from.old) (R.remaining from.new) (take (len_read result) buf.new) }
    ensures whole { IfOk result (λ n. n < length buf.new → IsAtEnd (R.remaining from.new)) }
{
    let mut n = 0;
    while n < buf.len() {
        match read_from(from, buf, n) {
            Ok(0) => return Ok(n),
            Ok(got) => n += got,
            Err(error) => {
                say(errors, what, &error);
                return Err(Unread { len: n });
            }
        }
    }
    Ok(n)
}

// One read into `buf` from the place `at` on; no byte at the end of the input.
fn read_from<R: Read>(from: &mut R, buf: &mut [u8], at: usize) -> io::Result<usize>
    requires { at ≤ length buf.old }
    ensures within { IfOk result (λ n. at + n ≤ length buf.new) }
    ensures long { length buf.new ≡ length buf.old }
    ensures front { take at buf.new ≡ take at buf.old }
    ensures bytes { ReadConsumes (R.remaining from.old) (R.remaining from.new) result (drop at buf.new) }
{
    from.read(&mut buf[at..])
}

// Writes all of `bytes`. `what` names the output where that fails, which `errors` is told; of a pipe that nobody reads any more nothing is said.
pub fn write_output<W: Write, E: Write>(
    to: &mut W,
    bytes: &[u8],
    what: &[u8],
    errors: &mut E,
) -> Result<(), Unwritten>
    ensures { OnOk result (Appends (W.contents to.old) (W.contents to.new) bytes.now) }
{
    match to.write_all(bytes) {
        Ok(()) => Ok(()),
        Err(error) => {
            if error.kind() != ErrorKind::BrokenPipe {
                say(errors, what, &error);
            }
            Err(Unwritten)
        }
    }
}

// Writes a line: what failed, as the caller names it, a colon and the system's words for why. Nobody is left to be told where that fails.
pub fn say<E: Write>(errors: &mut E, what: &[u8], error: &io::Error) {
    let mut text = Cursor::new([0u8; 256]);
    let _ = write!(text, "{error}");
    let bytes = text.into_inner();
    let words = str::from_utf8(&bytes).map_or("", system_words);
    let _ = errors.write_all(what);
    let _ = errors.write_all(b": ");
    let _ = errors.write_all(words.as_bytes());
    let _ = errors.write_all(b"\n");
}

// An error's text, which zeros end, without its number: `No such file or directory` of `No such file or directory (os error 2)`.
fn system_words(text: &str) -> &str {
    let text = text.split_once('\0').map_or(text, |(text, _)| text);
    text.rsplit_once(" (os error ")
        .map_or(text, |(words, _)| words)
}
