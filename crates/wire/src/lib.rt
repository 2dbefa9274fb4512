// Varints, read from a slice of bytes and put into one: crates/rules/specs/Wire.antt. internal: what is put needs room, which the writer of crate
// confstate has counted before.
#![tactic(auto)]

ghost use Rattle.std.specs.Prelude.{◌≡◌, ◌+◌, ◌≤◌, ◌<◌, ◌^◌, length};
ghost use Rattle.rules.specs.Wire.{varint_of};
ghost use Rattle.text.specs.Put.{Put};
ghost use Rattle.wire.specs.Varints.{read_at, tenth_at, end_of};

// A number that was read, and the place after it.
#[derive(Clone, Copy, Debug, PartialEq, Eq)]
pub struct Varint {
    pub value: u64,
    pub next: usize,
}

// Why no number was read.
#[derive(Clone, Copy, Debug, PartialEq, Eq)]
pub enum Fault {
    // The bytes end within it.
    CutShort,
    // It is over ten bytes or 64 bits; `next` is the place after it.
    Malformed { next: usize },
}

// The place of the last byte that a number may have, counted from its first, and what a 1 there is worth.
const TENTH: usize = 9;

const TENTH_UNIT: u64 = 1 << 63;

// The varint at place `at`: those of one byte and of two first, which most are. It has two calls of `read_long`, since the compiler would put a function that is
// called once into its caller, and this one is to be short.
pub fn read_varint(bytes: &[u8], at: usize) -> Result<Varint, Fault>
    ensures { result ≡ read_at bytes.now at }
{
    if bytes.len() <= at {
        return Err(Fault::CutShort);
    }
    let first = u64::from(bytes[at]);
    if first < 128 {
        return Ok(Varint {
            value: first,
            next: at + 1,
        });
    }
    if bytes.len() - at < 2 {
        return read_long(bytes, at);
    }
    let second = u64::from(bytes[at + 1]);
    if second < 128 {
        return Ok(Varint {
            value: first - 128 + 128 * second,
            next: at + 2,
        });
    }
    read_long(bytes, at)
}

// The same, of any length, byte after byte.
fn read_long(bytes: &[u8], at: usize) -> Result<Varint, Fault>
    requires { at ≤ length bytes.now }
    ensures { result ≡ read_at bytes.now at }
{
    let mut value: u64 = 0;
    let mut unit: u64 = 1;
    for i in 0..TENTH {
        if bytes.len() <= at + i {
            return Err(Fault::CutShort);
        }
        let byte = u64::from(bytes[at + i]);
        if byte < 128 {
            return Ok(Varint {
                value: value + unit * byte,
                next: at + i + 1,
            });
        }
        value += unit * (byte - 128);
        unit *= 128;
    }
    tenth(bytes, at + TENTH, value)
}

// The tenth byte, at place `at`, after nine that are worth `value`: 0 or 1, or the number is over 64 bits.
fn tenth(bytes: &[u8], at: usize, value: u64) -> Result<Varint, Fault>
    requires { (at ≤ length bytes.now) × (value < 2 ^ 63) }
    ensures { result ≡ tenth_at bytes.now at value }
{
    if bytes.len() <= at {
        return Err(Fault::CutShort);
    }
    let b = u64::from(bytes[at]);
    if b < 2 {
        return Ok(Varint {
            value: value + TENTH_UNIT * b,
            next: at + 1,
        });
    }
    match end_of(bytes, at) {
        Some(next) => Err(Fault::Malformed { next }),
        None => Err(Fault::CutShort),
    }
}

// The place after the first byte below 128 from `at` on.
fn end_of(bytes: &[u8], at: usize) -> Option<usize>
    requires { at ≤ length bytes.now }
    ensures { result ≡ end_of bytes.now at }
{
    let length = bytes[at..].iter().position(|&byte| byte < 128)?;
    Some(at + length + 1)
}

// How many bytes the number takes.
pub fn size(n: u64) -> usize
    ensures { result ≡ length (varint_of n) }
{
    if n < 128 {
        return 1;
    }
    if n < 34359738368 {
        return size_to_5(n);
    }
    size_to_10(n)
}

// Of a number of two to five bytes.
#[tactic(auto, using(crate::proofs::Putting::size_of_3))]
fn size_to_5(n: u64) -> usize
    requires { (128 ≤ n) × (n < 2 ^ 35) }
    ensures { result ≡ length (varint_of n) }
{
    if n < 16384 {
        return 2;
    }
    if n < 2097152 {
        return 3;
    }
    if n < 268435456 {
        return 4;
    }
    5
}

// Of a number of six to ten bytes.
fn size_to_10(n: u64) -> usize
    requires { 2 ^ 35 ≤ n }
    ensures { result ≡ length (varint_of n) }
{
    if n < 4398046511104 {
        return 6;
    }
    if n < 562949953421312 {
        return 7;
    }
    if n < 72057594037927936 {
        return 8;
    }
    if n < 9223372036854775808 {
        return 9;
    }
    10
}

// The number put at place `at`; the place after it.
pub fn put_varint(out: &mut [u8], at: usize, n: u64) -> usize
    requires { at + length (varint_of n) ≤ length out.old }
    ensures { Put out.old at (varint_of n) out.new result }
{
    let mut p = at;
    let mut m = n;
    while 128 <= m {
        out[p] = 128 + (m % 128) as u8;
        m = m / 128;
        p += 1;
    }
    out[p] = m as u8;
    p + 1
}
