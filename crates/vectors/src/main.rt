// Replays the fixed vectors, the Rust's answers, without Rust: reads the cases from standard input, runs the entry of each and compares what it
// returns and every lent byte. Prints a line for each case that differs, and the counts. `host/run vectors crates/vectors` makes the files stdin and
// stdout of this crate from the Rust's answers; host/VECTORS.md says how, and has the format.
#![tactic(auto)]

use case::{Difference, Kind};
use std::io::{Read, Write};
use std::{fmt, io};

mod case; // one case
mod unpack; // the bytes of a case

// `dimevec2`, with which the file begins, as a number.
const NAME: u64 = 3630857283772967268;

// How many cases were replayed, of each kind.
#[derive(Clone, Copy, Default)]
struct Counts {
    calls: u64,
    scripts: u64,
    by_rust: u64,
    passed: u64,
    failed: u64,
}

// The last two lines.
impl fmt::Display for Counts {
    fn fmt<W: fmt::Write>(&self, f: &mut fmt::Formatter<W>) -> fmt::Result {
        let Counts {
            calls,
            scripts,
            by_rust,
            passed,
            failed,
        } = *self;
        write!(
            f,
            "{calls} calls, {scripts} scripts; {by_rust} answered by the Rust\n{passed} passed, {failed} failed"
        )
    }
}

// The next case is read, replayed and counted; a difference is printed. Whether the one after it can be read.
fn next<R: Read, E: Write>(
    rt: &impl Print,
    from: &mut R,
    errors: &mut E,
    counts: &mut Counts,
) -> io::Result<bool> {
    let head = case::read_head(from, errors);
    let outcome = match head {
        Some(head) => case::fetch(from, errors, head),
        None => Err(Difference::Cut),
    };
    match outcome {
        Ok(()) => counts.passed = counts.passed.wrapping_add(1),
        Err(difference) => {
            let number = counts.passed.wrapping_add(counts.failed).wrapping_add(1);
            println!(rt; "case {number}: {difference}")?;
            counts.failed = counts.failed.wrapping_add(1);
            if matches!(difference, Difference::Cut | Difference::Long) {
                return Ok(false);
            }
        }
    }
    let Some(head) = head else {
        return Ok(false);
    };
    match head.kind {
        Some(Kind::Call) => counts.calls = counts.calls.wrapping_add(1),
        Some(Kind::Script) => counts.scripts = counts.scripts.wrapping_add(1),
        None => {}
    }
    counts.by_rust = counts.by_rust.wrapping_add(u64::from(head.by_rust));
    Ok(true)
}

// So many cases one after the other, as far as they can be read. Nothing may follow the last one.
fn replay<R: Read, E: Write>(
    rt: &impl Print,
    from: &mut R,
    errors: &mut E,
    cases: u64,
) -> io::Result<Counts> {
    let mut counts = Counts::default();
    for _ in 0..cases {
        if !next(rt, from, errors, &mut counts)? {
            return Ok(counts);
        }
    }
    if case::read(from, &mut [0u8; 1], errors) != 0 {
        println!(rt; "bytes after the last case")?;
        counts.failed = counts.failed.wrapping_add(1);
    }
    Ok(counts)
}

fn main(rt: HostRuntime) -> io::Result<()> {
    let mut from = rt.stdin();
    let mut errors = rt.stderr();
    let mut head = [0u8; 16];
    let n = case::read(&mut from, &mut head, &mut errors);
    if n < 16 || calls::read::word(&head, 0) != NAME {
        return println!(rt; "no vectors\n0 passed, 1 failed");
    }
    let counts = replay(&rt, &mut from, &mut errors, calls::read::word(&head, 1))?;
    println!(rt; "{counts}")
}
