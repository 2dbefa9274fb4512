// The writer: one encoding for each message.
ghost use Rattle.std.specs.Prelude.{◌≡◌, ◌+◌, ◌*◌, ◌≤◌, ◌<◌, eqb, length};
ghost use Rattle.rules.specs.Message.{packed_of, list_field, flag_field, encoded};
ghost use Rattle.text.specs.Put.{Put};
ghost use Rattle.confstate.specs.Words.{list_in, message_in};
ghost use Rattle.confstate.specs.Entries.{write_number, write_answer, write_leaves};
ghost use Rattle.confstate.specs.Unwritten.{unwritten_number, answered, said};
ghost use Rattle.confstate.specs.Sizes.{refusal_of, sizes_of, field_size, total_of, Writable, Block, Listable};

use crate::{FLAG, IDS, LEARNERS, NEXT, OUTGOING, VOTERS, WORDS};

// Why a message is not written.
#[derive(Clone, Copy, Debug, PartialEq, Eq)]
pub enum Unwritten {
    // The words are no CONFSTATE.
    NoConfState,
    // A list of more than 64 ids.
    LongList,
    // The bytes are too few.
    SmallOutput,
}

impl Unwritten {
    // As docs/EMBEDDING.md has it.
    pub fn number(self) -> u64
        ensures { result ≡ unwritten_number self }
    {
        match self {
            Unwritten::NoConfState => 1,
            Unwritten::LongList => 2,
            Unwritten::SmallOutput => 31,
        }
    }
}

// How many bytes the numbers of each list take.
#[derive(Clone, Copy)]
struct Sizes {
    voters: usize,
    learners: usize,
    outgoing: usize,
    next: usize,
}

// The tag of a list, less its field's number times 8: a length and as many bytes.
const LIST_TAG: u8 = 2;

// The tag of the flag: field 5, a varint.
const FLAG_TAG: u8 = 8 * 5;

// Writes the message to the front of `bytes`: its length. The bytes of a message that is not written are as they were.
pub fn write(conf_state: &[u64], bytes: &mut [u8]) -> Result<usize, Unwritten>
    ensures { (said result ≡ write_number conf_state.now (length bytes.old)) × (answered result ≡ write_answer conf_state.now (length bytes.old)) × (bytes.new ≡ write_leaves conf_state.now bytes.old) }
{
    check(conf_state)?;
    let s = count(conf_state);
    if bytes.len() < total(s, conf_state[FLAG]) {
        return Err(Unwritten::SmallOutput);
    }
    Ok(put_message(bytes, s, conf_state))
}

// Whether the words are a CONFSTATE of lists that are not too long.
fn check(words: &[u64]) -> Result<(), Unwritten>
    ensures { said result ≡ refusal_of words.now }
{
    if words.len() != WORDS || 1 < words[FLAG] {
        return Err(Unwritten::NoConfState);
    }
    let most = IDS as u64;
    if most < words[VOTERS + IDS]
        || most < words[LEARNERS + IDS]
        || most < words[OUTGOING + IDS]
        || most < words[NEXT + IDS]
    {
        return Err(Unwritten::LongList);
    }
    Ok(())
}

// The ids of the list at word `start`.
fn ids(words: &[u64], start: usize) -> &[u64]
    requires { Block words.now start }
    ensures { result.now ≡ list_in words.now start }
{
    let n = words[start + IDS] as usize;
    &words[start..start + n]
}

// How many bytes the numbers of the four lists take.
fn count(words: &[u64]) -> Sizes
    requires { Writable words.now }
    ensures { result ≡ sizes_of (message_in words.now) }
{
    Sizes {
        voters: packed_size(ids(words, VOTERS)),
        learners: packed_size(ids(words, LEARNERS)),
        outgoing: packed_size(ids(words, OUTGOING)),
        next: packed_size(ids(words, NEXT)),
    }
}

// How many bytes the numbers take, one after the other.
fn packed_size(ids: &[u64]) -> usize
    requires { length ids.now ≤ 64 }
    ensures { result ≡ length (packed_of ids.now) }
{
    let mut n = 0;
    for id in ids {
        n += wire::size(*id);
    }
    n
}

// How many bytes the field of a list takes whose numbers take so many.
fn field_size(packed: usize) -> usize
    requires { packed ≤ 640 }
    ensures { result ≡ field_size packed }
{
    if packed == 0 {
        return 0;
    }
    1 + wire::size(packed as u64) + packed
}

// How many bytes the message takes.
fn total(s: Sizes, flag: u64) -> usize
    requires { (s.voters ≤ 640) × (s.learners ≤ 640) × (s.outgoing ≤ 640) × (s.next ≤ 640) × (flag ≤ 1) }
    ensures { result ≡ total_of s flag }
{
    field_size(s.voters)
        + field_size(s.learners)
        + field_size(s.outgoing)
        + field_size(s.next)
        + 2 * flag as usize
}

// The fields in the order of their numbers.
fn put_message(out: &mut [u8], s: Sizes, words: &[u64]) -> usize
    requires { Writable words.now × (s ≡ sizes_of (message_in words.now)) × (length (encoded (message_in words.now)) ≤ length out.old) }
    ensures { Put out.old 0 (encoded (message_in words.now)) out.new result }
{
    let a = put_list(out, 0, 1, s.voters, words, VOTERS);
    let b = put_list(out, a, 2, s.learners, words, LEARNERS);
    let c = put_list(out, b, 3, s.outgoing, words, OUTGOING);
    let d = put_list(out, c, 4, s.next, words, NEXT);
    put_flag(out, d, words[FLAG])
}

// The field of the list at word `start`: its tag, the length, the numbers. An empty list has none. It is not lent the ids: the count, were it read before the
// bytes are put, would be kept in memory through the loop over them, which then takes a third longer.
fn put_list(
    out: &mut [u8],
    at: usize,
    number: u8,
    packed: usize,
    words: &[u64],
    start: usize,
) -> usize
    requires { Listable number at packed words.now start (length out.old) }
    ensures { Put out.old at (list_field number (list_in words.now start)) out.new result }
{
    if packed == 0 {
        return at;
    }
    out[at] = 8 * number + LIST_TAG;
    let p = wire::put_varint(out, at + 1, packed as u64);
    put_packed(out, p, ids(words, start))
}

// The numbers one after the other.
fn put_packed(out: &mut [u8], at: usize, ids: &[u64]) -> usize
    requires { at + length (packed_of ids.now) ≤ length out.old }
    ensures { Put out.old at (packed_of ids.now) out.new result }
{
    let mut p = at;
    for id in ids {
        p = wire::put_varint(out, p, *id);
    }
    p
}

// The field of a flag that is set.
fn put_flag(out: &mut [u8], at: usize, flag: u64) -> usize
    requires { (flag ≤ 1) × (at + length (flag_field (eqb flag 1)) ≤ length out.old) }
    ensures { Put out.old at (flag_field (eqb flag 1)) out.new result }
{
    if flag == 0 {
        return at;
    }
    out[at] = FLAG_TAG;
    out[at + 1] = 1;
    at + 2
}
