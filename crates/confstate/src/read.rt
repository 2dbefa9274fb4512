// The reader. The first faulty field's refusal is given, and within it the lower.
ghost use Rattle.std.specs.Prelude.{◌≡◌, not, cond, [], ◌∷◌, ◌-◌, ◌≤◌, ◌<◌, eqb, ltb, length, drop, set};
ghost use Rattle.rules.specs.Apply.{no_conf_state};
ghost use Rattle.rules.specs.Wire.{numbered, single as single_of, length_in, varint_in};
ghost use Rattle.rules.specs.Message.{all, faulty, grown, lower, packed as packed_in, read as read_of};
ghost use Rattle.confstate.specs.Words.{conf_state_words, flag_word, list_in, message_in};
ghost use Rattle.confstate.specs.Entries.{read_answer, read_leaves};
ghost use Rattle.confstate.specs.Refusals.{number_of, refusal_for, told};
ghost use Rattle.confstate.specs.Steps.{Holding, Listing, Grows, Reads, Takes, held_at, field_at, fixed_at};

use crate::{FLAG, IDS, LIST, WORDS};
use wire::Fault;

// Why a message is not read.
#[derive(Clone, Copy, Debug, PartialEq, Eq)]
pub enum Refusal {
    // It ends within a field.
    CutShort,
    // A field is none, or none of its number's.
    Malformed,
    // A list of more than 64 ids.
    LongList,
    // The words that are lent are fewer than 261.
    FewWords,
}

impl Refusal {
    // As docs/EMBEDDING.md has it.
    pub fn number(self) -> u64
        ensures { result ≡ number_of self }
    {
        match self {
            Refusal::CutShort => 28,
            Refusal::Malformed => 29,
            Refusal::LongList => 30,
            Refusal::FewWords => 100,
        }
    }
}

impl From<Fault> for Refusal {
    ghost from_gives = { λ fault refusal. refusal ≡ refusal_for fault };

    fn from(fault: Fault) -> Refusal {
        match fault {
            Fault::CutShort => Refusal::CutShort,
            Fault::Malformed { .. } => Refusal::Malformed,
        }
    }
}

// The numbers of the fields: the lists in the order of their words, then the flag; those after it are unknown.
const FLAG_FIELD: u64 = 5;

const LAST_FIELD: u64 = 536870911;

// Reads a message into the words of a CONFSTATE; a refused one gives four empty lists and a false flag. The words after them are kept. Of less than 261
// words all are as they were.
pub fn read(bytes: &[u8], conf_state: &mut [u64]) -> Result<(), Refusal>
    ensures { (told result ≡ read_answer bytes.now (length conf_state.old)) × (conf_state.new ≡ read_leaves bytes.now conf_state.old) }
{
    if conf_state.len() < WORDS {
        return Err(Refusal::FewWords);
    }
    let words = &mut conf_state[..WORDS];
    words.fill(0);
    match fields(bytes, words) {
        Ok(()) => Ok(()),
        Err(refusal) => {
            words.fill(0);
            Err(refusal)
        }
    }
}

// The fields, one after the other, up to the first refusal.
fn fields(bytes: &[u8], words: &mut [u64]) -> Result<(), Refusal>
    requires { words.old ≡ conf_state_words no_conf_state }
    ensures { Reads (read_of bytes.now) result words.new }
{
    let mut at = 0;

    // A while: a step is as long as the field that was read.
    while at < bytes.len() {
        at = field(bytes, at, words)?;
    }
    Ok(())
}

// The field at `at`: its tag, then what it holds, by its wire type. The place after it.
fn field(bytes: &[u8], at: usize, words: &mut [u64]) -> Result<usize, Refusal>
    requires { Holding words.old }
    ensures { Takes (field_at bytes.now at (message_in words.old)) result words.new }
{
    let tag = wire::read_varint(bytes, at)?;
    let number = tag.value / 8;
    match tag.value % 8 {
        0 => varint_field(bytes, tag.next, number, words),
        1 => fixed_field(bytes, tag.next, number, 8),
        2 => length_field(bytes, tag.next, number, words),
        5 => fixed_field(bytes, tag.next, number, 4),
        _ => Err(Refusal::Malformed),
    }
}

// 0 is no field's number, and 2^29 and more are none.
fn misnumbered(number: u64) -> bool
    ensures { result ≡ not (numbered number) }
{
    number == 0 || LAST_FIELD < number
}

// A varint: a number of a list, or the flag.
fn varint_field(bytes: &[u8], at: usize, number: u64, words: &mut [u64]) -> Result<usize, Refusal>
    requires { Holding words.old }
    ensures { Takes (held_at at number (message_in words.old) (single_of (varint_in (drop at bytes.now)))) result words.new }
{
    let v = wire::read_varint(bytes, at)?;
    if misnumbered(number) {
        return Err(Refusal::Malformed);
    }
    if number < FLAG_FIELD {
        let k = LIST * (number as usize - 1);
        single(v.value, &mut words[k..k + LIST])?;
        return Ok(v.next);
    }
    if number == FLAG_FIELD {
        words[FLAG] = flag(v.value);
    }
    Ok(v.next)
}

// Any number but 0 is true.
fn flag(value: u64) -> u64
    ensures { result ≡ flag_word (not (eqb value 0)) }
{
    u64::from(value != 0)
}

// A length and as many bytes: the numbers of a list, packed.
fn length_field(bytes: &[u8], at: usize, number: u64, words: &mut [u64]) -> Result<usize, Refusal>
    requires { Holding words.old }
    ensures { Takes (held_at at number (message_in words.old) (length_in (drop at bytes.now) (varint_in (drop at bytes.now)))) result words.new }
{
    let v = wire::read_varint(bytes, at)?;
    let start = v.next;
    let left = bytes.len() - start;
    if (left as u64) < v.value {
        return Err(Refusal::CutShort);
    }
    if misnumbered(number) {
        return Err(Refusal::Malformed);
    }
    let end = start + v.value as usize;
    if number < FLAG_FIELD {
        let k = LIST * (number as usize - 1);
        packed(&bytes[start..end], &mut words[k..k + LIST])?;
        return Ok(end);
    }
    if number == FLAG_FIELD {
        return Err(Refusal::Malformed);
    }
    Ok(end)
}

// So many bytes, which only an unknown field may have.
fn fixed_field(bytes: &[u8], at: usize, number: u64, size: usize) -> Result<usize, Refusal>
    requires { at ≤ length bytes.now }
    ensures { result ≡ fixed_at (length bytes.now - at) at number size }
{
    if bytes.len() - at < size {
        return Err(Refusal::CutShort);
    }
    if misnumbered(number) || number <= FLAG_FIELD {
        return Err(Refusal::Malformed);
    }
    Ok(at + size)
}

// One number after those of a list.
fn single(value: u64, list: &mut [u64]) -> Result<(), Refusal>
    requires { Listing list.old }
    ensures { Grows (grown (list_in list.old 0) (all (value ∷ []))) result list.new }
{
    let n = list[IDS] as usize;
    if IDS <= n {
        return Err(Refusal::LongList);
    }
    list[n] = value;
    list[IDS] = n as u64 + 1;
    Ok(())
}

// Packed numbers after those of a list, those of one byte first. A cut one ends it; that there are more than 64 is told at the end.
fn packed(bytes: &[u8], list: &mut [u64]) -> Result<(), Refusal>
    requires { Listing list.old }
    ensures { Grows (grown (list_in list.old 0) (packed_in bytes.now)) result list.new }
{
    let mut n = list[IDS] as usize;
    let mut p = 0;

    // A while: a step is as long as the number that was read.
    while p < bytes.len() {
        let b = u64::from(bytes[p]);
        if b < 128 {
            store(list, n, b);
            n += 1;
            p += 1;
            continue;
        }
        match wire::read_varint(bytes, p) {
            Ok(v) => {
                store(list, n, v.value);
                n += 1;
                p = v.next;
            }
            Err(Fault::CutShort) => return Err(Refusal::CutShort),
            Err(Fault::Malformed { next }) => return Err(refusal_past(bytes, next)),
        }
    }
    let too_many = IDS < n;
    if too_many {
        return Err(Refusal::LongList);
    }
    list[IDS] = n as u64;
    Ok(())
}

// What is told of packed numbers of which one was malformed, and the rest begins at `at`: that, or that one is cut short.
fn refusal_past(bytes: &[u8], at: usize) -> Refusal
    requires { at ≤ length bytes.now }
    ensures { lower 29 (packed_in (drop at bytes.now)) ≡ faulty (number_of result) }
{
    let mut p = at;

    // A while: a step is as long as the number that was read.
    while p < bytes.len() {
        match wire::read_varint(bytes, p) {
            Ok(v) => p = v.next,
            Err(Fault::Malformed { next }) => p = next,
            Err(Fault::CutShort) => return Refusal::CutShort,
        }
    }
    Refusal::Malformed
}

// The id at place `n` of a list, where it has that place.
fn store(list: &mut [u64], n: usize, value: u64)
    requires { length list.old ≡ 65 }
    ensures { list.new ≡ cond (ltb n 64) (set list.old n value) list.old }
{
    if n < IDS {
        list[n] = value;
    }
}
