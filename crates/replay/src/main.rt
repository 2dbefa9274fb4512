// Reads a script from standard input and prints its listing, in blocks of lines; `too long` alone for more than 65,536 bytes. The turns and the lines are
// those of crate listing.
#![tactic(auto)]

ghost use Rattle.std.specs.Prelude.{OnOk};
ghost use Rattle.std.specs.Io.KnownBytes.{Appends};
ghost use Rattle.listing.specs.Listing.{listing};

use listing::Session;
use std::io::Write;
use streams::Unwritten;
use text::Output;

// A block of lines. It is written out where it may have no room for a line more: no line is longer than 11,520 bytes (`line-size`, crates/listing/proofs).
const BLOCK: usize = 32768;

const FULL: usize = BLOCK - 11520;

// The lines of the records one after the other, as far as they can be written.
fn list<W: Write, E: Write>(script: &[u8], out: &mut W, errors: &mut E) -> Result<(), Unwritten>
    ensures { OnOk result (Appends (W.contents out.old) (W.contents out.new) (listing script.now)) }
{
    let mut block = [0u8; BLOCK];
    let mut to = Output::new(&mut block);
    let mut session = Session::begin();
    let records = script.len() / 9;
    for k in 0..records {
        let at = 9 * k;
        let kind = script[at];
        if session.stops(kind) {
            listing::put_stopped(&mut to, at);
            let end = to.at;
            return write(&to.bytes[..end], out, errors);
        }
        session.turn(&mut to, kind, listing::number_at(script, at + 1));
        let end = to.at;
        if FULL < end {
            write(&to.bytes[..end], out, errors)?;
            to.at = 0;
        }
    }
    listing::put_ending(&mut to, 9 * records, script.len(), &session);
    let end = to.at;
    write(&to.bytes[..end], out, errors)
}

// Bytes of the listing. What fails is said.
fn write<W: Write, E: Write>(bytes: &[u8], out: &mut W, errors: &mut E) -> Result<(), Unwritten>
    ensures { OnOk result (Appends (W.contents out.old) (W.contents out.new) bytes.now) }
{
    streams::write_output(out, bytes, b"replay: standard output", errors)
}

fn main(rt: HostRuntime) {
    let mut out = rt.stdout();
    let mut errors = rt.stderr();
    let mut script = [0u8; listing::MAX_SCRIPT + 1];
    let read = streams::read_input(
        &mut rt.stdin(),
        &mut script,
        b"replay: standard input",
        &mut errors,
    );
    let _ = match read {
        Ok(n) if n <= listing::MAX_SCRIPT => list(&script[..n], &mut out, &mut errors),
        Ok(_) => write(b"too long\n", &mut out, &mut errors),
        Err(_) => Ok(()),
    };
}
