// One case: what it gives to an entry, and whether the answer is the one that it wants.
ghost use Rattle.std.specs.Prelude.{◌≡◌, length, OnOk};

use crate::unpack::unpack;
use std::fmt;
use std::io::{Read, Write};

// Which entry a case is for.
#[derive(Clone, Copy)]
pub(crate) enum Kind {
    Call,
    Script,
}

// The six words before a case's bytes.
#[derive(Clone, Copy)]
pub(crate) struct Head {
    // bytes of the pieces
    pub size: u64,
    // 0 a call, 1 a script; no entry is for another number
    pub kind: Option<Kind>,
    pub by_rust: bool,
    // bytes given, and bytes lent
    pub given: usize,
    pub lent: usize,
    // what the entry has to return
    pub value: u64,
}

// What a replay shows of a case that is not as it has to be.
#[derive(Clone, Copy)]
pub(crate) enum Difference {
    // The file ends in the case.
    Cut,
    // No case is that long, so the next one cannot be found.
    Long,
    // Its words and its pieces do not go together.
    Damaged,
    // The entry returned something else.
    Returned { is: u64, wanted: u64 },
    // A lent byte is another than it has to be.
    Byte { at: usize, is: u8, wanted: u8 },
}

impl fmt::Display for Difference {
    fn fmt<W: fmt::Write>(&self, f: &mut fmt::Formatter<W>) -> fmt::Result {
        match *self {
            Difference::Cut => write!(f, "cut short"),
            Difference::Long => write!(f, "too long"),
            Difference::Damaged => write!(f, "damaged"),
            Difference::Returned { is, wanted } => write!(f, "returned {is}, not {wanted}"),
            Difference::Byte { at, is, wanted } => {
                write!(f, "lent byte {at} is {is}, not {wanted}")
            }
        }
    }
}

// As many bytes as there are, up to the length of `buf`, at the front of it. A read that fails is said, and ends the file.
pub(crate) fn read<R: Read, E: Write>(from: &mut R, buf: &mut [u8], errors: &mut E) -> usize {
    streams::read_input(from, buf, b"vectors: standard input", errors).unwrap_or_else(
        |unread| unread.len,
    )
}

// The next case's words, if they are all there.
pub(crate) fn read_head<R: Read, E: Write>(from: &mut R, errors: &mut E) -> Option<Head> {
    let mut s = [0u8; 48];
    if read(from, &mut s, errors) < 48 {
        return None;
    }
    let kind = match calls::read::word(&s, 1) {
        0 => Some(Kind::Call),
        1 => Some(Kind::Script),
        _ => None,
    };
    Some(Head {
        size: calls::read::word(&s, 0),
        kind,
        by_rust: calls::read::word(&s, 2) == 1,
        given: calls::read::word(&s, 3) as usize,
        lent: calls::read::word(&s, 4) as usize,
        value: calls::read::word(&s, 5),
    })
}

// The case of this head, the rest of it read and replayed.
pub(crate) fn fetch<R: Read, E: Write>(
    from: &mut R,
    errors: &mut E,
    h: Head,
) -> Result<(), Difference> {
    let n = h.size as usize;
    if 65536 < n {
        return Err(Difference::Long);
    }
    let mut packed = [0u8; 65536];
    fill(from, errors, h, &mut packed[..n])
}

// The pieces, read into a buffer of their length.
fn fill<R: Read, E: Write>(
    from: &mut R,
    errors: &mut E,
    h: Head,
    packed: &mut [u8],
) -> Result<(), Difference> {
    if read(from, packed, errors) < packed.len() {
        return Err(Difference::Cut);
    }
    expand(h, packed)
}

// The pieces give the bytes to be passed and what the lent bytes have to be after the call, one after the other.
fn expand(h: Head, packed: &[u8]) -> Result<(), Difference> {
    let Some(kind) = h.kind else {
        return Err(Difference::Damaged);
    };
    let mut body = [0u8; 131073];
    let end = h.given.saturating_add(h.lent);
    if unpack(packed, &mut body) != Some(end) || 131073 < end {
        return Err(Difference::Damaged);
    }
    lend(h, kind, &body[..end])
}

// As many bytes are lent as the case wants, each a5 in hexadecimal.
fn lend(h: Head, kind: Kind, body: &[u8]) -> Result<(), Difference> {
    if body.len() < h.given {
        return Err(Difference::Damaged);
    }
    let (given, wanted) = body.split_at(h.given);
    if 65536 < wanted.len() {
        return Err(Difference::Damaged);
    }
    let mut lent = [165u8; 65536];
    compare(kind, h.value, given, wanted, &mut lent[..wanted.len()])
}

// The entry's answer beside the one that is wanted. It is the same only where every lent byte is.
fn compare(
    kind: Kind,
    value: u64,
    given: &[u8],
    wanted: &[u8],
    lent: &mut [u8],
) -> Result<(), Difference>
    requires { length wanted.now ≡ length lent.old }
    ensures { OnOk result (lent.new ≡ wanted.now) }
{
    let is = match kind {
        Kind::Call => calls::dimecandle_call(given, lent),
        Kind::Script => listing::dimecandle_replay(given, lent),
    };
    if is != value {
        return Err(Difference::Returned { is, wanted: value });
    }
    first_difference(wanted, lent)
}

// The first lent byte that is another than the one wanted.
fn first_difference(wanted: &[u8], lent: &[u8]) -> Result<(), Difference>
    requires { length wanted.now ≡ length lent.now }
    ensures { OnOk result (lent.now ≡ wanted.now) }
{
    for at in 0..wanted.len() {
        if lent[at] != wanted[at] {
            return Err(Difference::Byte {
                at,
                is: lent[at],
                wanted: wanted[at],
            });
        }
    }
    Ok(())
}
