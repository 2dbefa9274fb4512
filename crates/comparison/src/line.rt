// The text of a line: document 02, l).
ghost use Rattle.std.specs.Prelude.{cond, []};
ghost use Rattle.text.specs.Writes.{Writes};
ghost use Rattle.comparison.specs.Compare.{standing_text, line, flag_line};
ghost use Rattle.comparison.specs.Steps.{name_text};

use text::Output;

// The sets that an id is in.
#[derive(Clone, Copy, PartialEq, Eq)]
pub struct Standing {
    pub voters: bool,
    pub outgoing: bool,
    pub learners: bool,
    pub next: bool,
}

// `2 voters -> learners`.
pub fn put_line(to: &mut Output, id: u64, s: Standing, t: Standing)
    ensures { Writes to.old (line id s t) to.new }
{
    to.put_decimal(id);
    to.put_byte(b' ');
    put_standing(to, s);
    to.put_bytes(b" -> ");
    put_standing(to, t);
    to.put_byte(b'\n');
}

// The names of the sets, joined by `+`; `none` where there is none.
fn put_standing(to: &mut Output, s: Standing)
    ensures { Writes to.old (standing_text s) to.new }
{
    let second = s.voters;
    let third = second || s.outgoing;
    let fourth = third || s.learners;
    if !(fourth || s.next) {
        to.put_bytes(b"none");
        return;
    }
    put_name(to, s.voters, false, b"voters");
    put_name(to, s.outgoing, second, b"voters_outgoing");
    put_name(to, s.learners, third, b"learners");
    put_name(to, s.next, fourth, b"learners_next");
}

// The name of a set that the id is in, after a `+` where another name stands before it.
fn put_name(to: &mut Output, is_in: bool, later: bool, name: &[u8])
    ensures { Writes to.old (name_text is_in later name.now) to.new }
{
    put_if(to, is_in && later, b"+");
    put_if(to, is_in, name);
}

// The flag, where it differs.
pub fn put_flag(to: &mut Output, first: bool, second: bool)
    ensures { Writes to.old (flag_line first second) to.new }
{
    put_if(to, second && !first, b"auto_leave false -> true\n");
    put_if(to, first && !second, b"auto_leave true -> false\n");
}

// The text, where it is wanted.
fn put_if(to: &mut Output, wanted: bool, text: &[u8])
    ensures { Writes to.old (cond wanted text.now []) to.new }
{
    let _at = to.at; // Read, so that it is known that the place is a usize.
    if wanted {
        to.put_bytes(text);
    }
}
