// Compares two files, each a ConfState as it travels: document 02, l). Prints a line for every id whose standing differs, and one for the flag; `refused N`
// alone for a fault, and says on standard error of which file it is, and why. What is printed is the text of crate comparison.
#![tactic(auto)]

ghost use Rattle.std.specs.Prelude.{◌≤◌, length, IfOk, OnOk};
ghost use Rattle.std.specs.Io.KnownBytes.{Appends};
ghost use Rattle.comparison.specs.Compare.{comparison};
ghost use Rattle.streams.specs.Input.{len_read};

use confstate::read::Refusal;
use std::env::{Env, FillError};
use std::fs::File;
use std::io;
use std::io::{Error, ErrorKind, Write};
use std::rt::Files;
use streams::{Unread, Unwritten};
use text::Output;

// A file is read one byte further than it may be long.
const ROOM: usize = comparison::MAX_FILE + 1;

// The most bytes of a file's name, and of a sentence about it.
const MAX_NAME: usize = 4096;

const MAX_SENTENCE: usize = MAX_NAME + 64;

// Linux's number for a name that is too long.
const NAME_TOO_LONG: i32 = 36;

fn main(rt: HostRuntime) {
    let mut errors = rt.stderr();
    if !is_given(&rt, 2) || is_given(&rt, 3) {
        let _ = errors.write_all(b"usage: compare FILE FILE\n");
        return;
    }
    let mut first = [0u8; ROOM];
    let mut second = [0u8; ROOM];
    let a = read_file(&rt, 1, &mut first, &mut errors);
    let b = read_file(&rt, 2, &mut second, &mut errors);
    let (readable, m, n) = match (a, b) {
        (Ok(m), Ok(n)) => (true, m, n),
        _ => (false, 0, 0),
    };
    let _ = show(
        &rt,
        readable,
        &first[..m],
        &second[..n],
        &mut rt.stdout(),
        &mut errors,
    );
}

// Whether there is an argument `i`. The program's own name is argument 0.
fn is_given(rt: &impl Env, i: usize) -> bool {
    let mut front = [0u8; 1];
    !matches!(rt.arg(i, &mut front), Err(FillError::NotPresent))
}

// The file that argument `i` names, read to its end or as far as `buf` goes. What fails is said.
fn read_file<R: Files + Env, E: Write>(
    rt: &R,
    i: usize,
    buf: &mut [u8],
    errors: &mut E,
) -> Result<usize, Unread>
    ensures { len_read result ≤ length buf.new }
{
    let mut what = [0u8; MAX_SENTENCE];
    let n = named(rt, i, b": refused 32", &mut what);
    match open(rt, i) {
        Ok(mut file) => streams::read_input(&mut file, buf, &what[..n], errors),
        Err(error) => {
            streams::say(errors, &what[..n], &error);
            Err(Unread { len: 0 })
        }
    }
}

// The file that argument `i` names, open for reading. A name that is not UTF-8 cannot be opened.
fn open<R: Files + Env>(rt: &R, i: usize) -> io::Result<R::File> {
    let mut name = [0u8; MAX_NAME];
    let Ok(n) = rt.arg(i, &mut name) else {
        return Err(Error::from_raw_os_error(NAME_TOO_LONG));
    };
    match str::from_utf8(&name[..n]) {
        Ok(path) => File::open(rt, path),
        Err(_) => Err(Error::new(ErrorKind::InvalidFilename, "the name is not UTF-8")),
    }
}

// `compare: `, the file's name that argument `i` is, and `then`, at the front of `out`; how many bytes that takes there.
fn named(rt: &impl Env, i: usize, then: &[u8], out: &mut [u8]) -> usize
    ensures { result ≤ length out.new }
{
    let mut name = [0u8; MAX_NAME];
    let n = rt.arg(i, &mut name).unwrap_or(0);
    let mut to = Output::new(out);
    to.put_bytes(b"compare: ");
    to.put_bytes(&name[..n]);
    to.put_bytes(then);
    to.at.min(to.bytes.len())
}

// Prints what two files give, and says which of them is refused. No text is longer than LONGEST (`comparison-size`,
// crates/comparison/proofs).
fn show<W: Write, E: Write>(
    rt: &impl Env,
    readable: bool,
    first: &[u8],
    second: &[u8],
    out: &mut W,
    errors: &mut E,
) -> Result<(), Unwritten>
    ensures { OnOk result (Appends (W.contents out.old) (W.contents out.new) (comparison readable first.now second.now)) }
{
    let mut text = [0u8; comparison::LONGEST];
    let mut to = Output::new(&mut text);
    comparison::put_comparison(&mut to, readable, first, second);
    let n = to.at;
    let printed = streams::write_output(out, &text[..n], b"compare: standard output", errors);
    if readable {
        explain(rt, first, second, errors);
    }
    printed
}

// Of two files that could be read: says which are too long, or which one's message is refused.
fn explain<E: Write>(rt: &impl Env, first: &[u8], second: &[u8], errors: &mut E) {
    let first_long = is_long(rt, 1, first, errors);
    let second_long = is_long(rt, 2, second, errors);
    if first_long || second_long {
        return;
    }
    let _ = is_faulty(rt, 1, first, errors) || is_faulty(rt, 2, second, errors);
}

// Whether a file is too long, which is then said.
fn is_long<E: Write>(rt: &impl Env, i: usize, bytes: &[u8], errors: &mut E) -> bool {
    if bytes.len() <= comparison::MAX_FILE {
        return false;
    }
    say(rt, i, b": refused 32: longer than 32768 bytes\n", errors);
    true
}

// Whether a file's message is refused, which is then said.
fn is_faulty<E: Write>(rt: &impl Env, i: usize, bytes: &[u8], errors: &mut E) -> bool {
    let mut words = [0u64; confstate::WORDS];
    let then: &[u8] = match confstate::read::read(bytes, &mut words) {
        Ok(()) => return false,
        Err(Refusal::CutShort) => b": refused 28: the message is cut short\n",
        Err(Refusal::Malformed) => b": refused 29: the message is malformed\n",
        Err(Refusal::LongList) => b": refused 30: a list has more than 64 ids\n",
        Err(Refusal::FewWords) => return true,
    };
    say(rt, i, then, errors);
    true
}

// A sentence about a file, on standard error.
fn say<E: Write>(rt: &impl Env, i: usize, then: &[u8], errors: &mut E) {
    let mut out = [0u8; MAX_SENTENCE];
    let n = named(rt, i, then, &mut out);
    let _ = errors.write_all(&out[..n]);
}
