// The bytes of a case from its pieces. A piece is a kind, a count in two bytes, and
// 0: so many bytes;
// 1: so many bytes, each the least of a word whose other seven are 0;
// 2: a distance in two bytes: so many bytes as stand that far back in what is written.
ghost use Rattle.std.specs.Prelude.{◌<◌, length, IfSome};

use text::Output;

// All pieces, put at the front of `out` as far as it goes; how many bytes they are, unless they are damaged.
pub(crate) fn unpack(pieces: &[u8], out: &mut [u8]) -> Option<usize> {
    let mut to = Output::new(out);
    let mut left = pieces;
    while !left.is_empty() {
        left = put_piece(&mut to, left)?;
    }
    Some(to.at)
}

// The first piece, unless it is damaged; the pieces after it.
fn put_piece<'a>(to: &mut Output, pieces: &'a [u8]) -> Option<&'a [u8]>
    ensures { IfSome result (λ after. length after.now < length pieces.now) }
{
    let [kind, low, high, rest @ ..] = pieces else {
        return None;
    };
    let n = two_bytes(*low, *high);
    match *kind {
        0 => {
            let (bytes, after) = rest.split_at_checked(n)?;
            to.put_bytes(bytes);
            Some(after)
        }
        1 => {
            let (bytes, after) = rest.split_at_checked(n)?;
            put_words(to, bytes);
            Some(after)
        }
        2 => {
            let [low, high, after @ ..] = rest else {
                return None;
            };
            put_again(to, two_bytes(*low, *high), n)?;
            Some(after)
        }
        _ => None,
    }
}

// A count or a distance.
fn two_bytes(low: u8, high: u8) -> usize {
    usize::from(u16::from_le_bytes([low, high]))
}

// A word for each byte.
fn put_words(to: &mut Output, s: &[u8]) {
    for b in s {
        to.put_bytes(&u64::from(*b).to_le_bytes());
    }
}

// Bytes that stand so far back, unless there are none. Those that are written here may be read again: at distance 1 a byte is repeated.
fn put_again(to: &mut Output, distance: usize, n: usize) -> Option<()> {
    for _ in 0..n {
        let from = to.at.checked_sub(distance)?;
        let b = *to.bytes.get(from)?;
        to.put_byte(b);
    }
    Some(())
}
