// Where two controllers disagree: document 02, l). Two ConfState messages in bytes, each list taken as a set: a line for every id whose standing differs,
// and one for the flag. The text is put into a lent slice, as far as it goes there, and counted to its end.
#![tactic(auto)]

ghost use Rattle.std.specs.Prelude.{◌≡◌, leb, length};
ghost use Rattle.text.specs.Writes.{Writes};
ghost use Rattle.confstate.specs.Words.{message_in};
ghost use Rattle.comparison.specs.Compare.{lines, refused_text, comparison, compare_answer, compare_leaves};
ghost use Rattle.comparison.specs.Steps.{Ascending, SetsRead, BothRead, number_of, told_by, answered};

mod refusal; // why there are no lines
mod sets; // lists put in order
mod walk; // the ids of both messages, one after the other
mod line; // the text of a line

use refusal::Refusal;
use text::Output;
use walk::Walk;

// The most bytes that a file has.
pub const MAX_FILE: usize = 32768;

// The most bytes that are printed: 512 ids of 20 digits, each in one list of one message, and the flag.
pub const LONGEST: usize = 20761;

// What `compare` answers more than a refusal's number.
const REFUSED: u64 = 4294967296;

// What is printed of two files, `readable` saying whether both could be read: `refused N`, or the lines.
pub fn put_comparison(to: &mut Output, readable: bool, first: &[u8], second: &[u8])
    ensures { Writes to.old (comparison readable first.now second.now) to.new }
{
    let mut a = [0u64; confstate::WORDS];
    let mut b = [0u64; confstate::WORDS];
    match read_both(readable, first, second, &mut a, &mut b) {
        Ok(()) => put_lines(to, &a, &b),
        Err(refusal) => put_refused(to, refusal),
    }
}

// The lines of two messages to the front of `out`, every byte after them kept; their length comes back. 2^32 and 32 for a slice over 32 KiB, or 28, 29 or
// 30 of the first, then of the second; 2^32 + 100 for lines longer than `out`; it is then as it was.
pub fn compare(first: &[u8], second: &[u8], out: &mut [u8]) -> u64
    ensures { (result ≡ compare_answer first.now second.now (length out.old)) × (out.new ≡ compare_leaves first.now second.now out.old) }
{
    match put_compared(first, second, out) {
        Ok(length) => length as u64,
        Err(refusal) => REFUSED + refusal.number(),
    }
}

// The lines of two messages to the front of `out`, where they have room; their length.
fn put_compared(first: &[u8], second: &[u8], out: &mut [u8]) -> Result<usize, Refusal>
    ensures { (answered result ≡ compare_answer first.now second.now (length out.old)) × (out.new ≡ compare_leaves first.now second.now out.old) }
{
    let mut a = [0u64; confstate::WORDS];
    let mut b = [0u64; confstate::WORDS];
    read_both(true, first, second, &mut a, &mut b)?;
    if !have_room(&a, &b, out.len()) {
        return Err(Refusal::NoRoom);
    }
    let mut to = Output::new(out);
    put_lines(&mut to, &a, &b);
    Ok(to.at)
}

// Whether the lines of two messages have room: the longest that there can be, or these, which are then counted.
fn have_room(a: &[u64], b: &[u64], room: usize) -> bool
    requires { Ascending a.now × Ascending b.now }
    ensures { result ≡ leb (length (lines (message_in a.now) (message_in b.now))) room }
{
    if LONGEST <= room {
        return true;
    }
    let mut none = [0u8; 1];
    let mut counted = Output::new(&mut none);
    put_lines(&mut counted, a, b);
    counted.at <= room
}

// Reads both messages, each list as a set. A file that is not fit comes before any fault in one of them.
fn read_both(
    readable: bool,
    first: &[u8],
    second: &[u8],
    a: &mut [u64],
    b: &mut [u64],
) -> Result<(), Refusal>
    requires { (length a.old ≡ 261) × (length b.old ≡ 261) }
    ensures { BothRead readable first.now second.now (told_by result) a.new b.new }
{
    let first_long = MAX_FILE < first.len();
    let second_long = MAX_FILE < second.len();
    if !readable || first_long || second_long {
        return Err(Refusal::Unfit);
    }
    read_sets(first, a)?;
    read_sets(second, b)
}

// Reads a message, each list as a set.
fn read_sets(bytes: &[u8], words: &mut [u64]) -> Result<(), Refusal>
    requires { length words.old ≡ 261 }
    ensures { SetsRead bytes.now (told_by result) words.new }
{
    let read = confstate::read::read(bytes, words);
    sets::sort_lists(words);
    Ok(read?)
}

// `refused N`.
fn put_refused(to: &mut Output, refusal: Refusal)
    ensures { Writes to.old (refused_text (number_of refusal)) to.new }
{
    to.put_bytes(b"refused ");
    to.put_decimal(refusal.number());
    to.put_byte(b'\n');
}

// The lines of two messages whose lists ascend: of the ids as they are met, where their standings differ, then of the flag.
fn put_lines(to: &mut Output, a: &[u64], b: &[u64])
    requires { Ascending a.now × Ascending b.now }
    ensures { Writes to.old (lines (message_in a.now) (message_in b.now)) to.new }
{
    let mut first = Walk::new(a);
    let mut second = Walk::new(b);
    while let Some(id) = walk::next_id(&first, &second) {
        let s = first.sets_at(id);
        let t = second.sets_at(id);
        if s != t {
            line::put_line(to, id, s, t);
        }
        first.pass(s);
        second.pass(t);
    }
    line::put_flag(to, a[confstate::FLAG] == 1, b[confstate::FLAG] == 1);
}
