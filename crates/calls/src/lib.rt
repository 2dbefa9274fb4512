// One call on any state, in bytes; one question about a box, in words; ConfState as it travels, and two of them compared: docs/EMBEDDING.md has the layout.
// This is how another language embeds the library, and how it is compared with the Rust.
#![tactic(auto)]

ghost use Rattle.std.specs.Prelude.{◌≡◌, false, length};
ghost use Rattle.tracker.specs.Apply.{id_of, number_of, outcome_left};
ghost use Rattle.tracker.specs.ConfStates.{written_of};
ghost use Rattle.tracker.specs.Refusals.{id_at, number_at, said};
ghost use Rattle.confstate.specs.Entries.{read_answer, read_leaves, write_answer, write_leaves};
ghost use Rattle.comparison.specs.Compare.{compare_answer, compare_leaves};
ghost use Rattle.changer.specs.Calls.{answered, simple_answer, enter_answer};
ghost use Rattle.unplug.specs.Words.{flag};
ghost use Rattle.calls.specs.Layout.{word};
ghost use Rattle.calls.specs.Call.{from_answer, from_outcome, from_written, reply as reply_of, no_log, no_lists, ids_in, kinds_in, reply_for, Asks, call_answer, call_leaves};
ghost use Rattle.calls.specs.Unplugs.{Unplugs, told, unplug_answer, unplug_leaves};

use crate::asked::{Call, Unanswered};
use crate::places::{AUTO_LEAVE, CALL, NEXT_IDX, REPLY, REQUEST};
use changer::Changed;
use restore::{restore, restore_step_by_step};
use text::Output;
use tracker::apply::apply_conf;
use tracker::refusal::Refusal;
use tracker::{ChangeLog, ConfState, Tracker};

mod asked; // which call, and why it is not answered
mod places; // the places in a request
pub mod read; // a request
pub mod write; // a reply

// What is added to the number of a refusal where a length may be returned: more than any length.
const REFUSED: u64 = 4294967296;

// What a call answers.
#[derive(Clone, Copy)]
pub struct Reply {
    pub number: u64,
    pub id: u64,
    pub yes: bool,
    pub tracker: Tracker,
    pub log: ChangeLog,
    pub conf_state: ConfState,
    pub idle: usize,
}

// The call that a request asks for, its answer written to the front of `reply`: 0. A request of the wrong length: 1; a reply that is too short: 2; an
// unknown call: 3; a word that no field can hold: 4; the reply is then as it was.
pub fn dimecandle_call(request: &[u8], reply: &mut [u8]) -> u64
    ensures { (result ≡ call_answer request.now (length reply.old)) × (reply.new ≡ call_leaves request.now reply.old) }
{
    match call_in(request, reply.len()) {
        Ok(call) => {
            let mut to = Output::new(reply);
            write::put_reply(&mut to, &reply_to(request, call));
            0
        }
        Err(why) => why.number(),
    }
}

// The call that a request asks for, where its answer has `room`.
fn call_in(request: &[u8], room: usize) -> Result<Call, Unanswered>
    ensures { Asks request.now room result }
{
    if request.len() != REQUEST {
        return Err(Unanswered::Length);
    }
    if room < REPLY {
        return Err(Unanswered::Room);
    }
    let call = Call::try_from(read::word(request, CALL))?;
    if !read::holds(request) {
        return Err(Unanswered::Word);
    }
    Ok(call)
}

// Can this box be unplugged? The number and id of `simple` with the removal of `id` alone, of a STATE in words, at the front of `verdict`: 0. A state that has
// not 967 words: 1; a verdict of less than two: 2; a word that no field can hold: 4; the verdict is then as it was.
pub fn dimecandle_unplug(state: &[u64], id: u64, verdict: &mut [u64]) -> u64
    ensures { (result ≡ unplug_answer state.now (length verdict.old)) × (verdict.new ≡ unplug_leaves state.now id verdict.old) }
{
    match unplugged(state, id, verdict.len()) {
        Ok(answer) => {
            let (number, named) = number_and_id(answer);
            verdict[0] = number;
            verdict[1] = named;
            0
        }
        Err(why) => why.number(),
    }
}

// Whether the box can be unplugged, where a verdict has `room`.
fn unplugged(state: &[u64], id: u64, room: usize) -> Result<Result<(), Refusal>, Unanswered>
    ensures { Unplugs state.now id room (told result) }
{
    if state.len() != unplug::layout::WORDS {
        return Err(Unanswered::Length);
    }
    if room < 2 {
        return Err(Unanswered::Room);
    }
    Ok(unplug::unplug(state, id)?)
}

// A ConfState read from its bytes into the words of a CONFSTATE: 0; or 28, 29, 30, and four empty lists and a false flag. The words after them are kept.
// Less than 261 words: 100, and they are as they were.
pub fn dimecandle_read_conf_state(bytes: &[u8], conf_state: &mut [u64]) -> u64
    ensures { (result ≡ read_answer bytes.now (length conf_state.old)) × (conf_state.new ≡ read_leaves bytes.now conf_state.old) }
{
    match confstate::read::read(bytes, conf_state) {
        Ok(()) => 0,
        Err(refusal) => refusal.number(),
    }
}

// A ConfState written from the words of a CONFSTATE to the front of `bytes`: its length, and the bytes after it are kept. Else 2^32 and the refusal, 1, 2 or
// 31, and the bytes are as they were.
pub fn dimecandle_write_conf_state(conf_state: &[u64], bytes: &mut [u8]) -> u64
    ensures { (result ≡ write_answer conf_state.now (length bytes.old)) × (bytes.new ≡ write_leaves conf_state.now bytes.old) }
{
    match confstate::write::write(conf_state, bytes) {
        Ok(length) => length as u64,
        Err(refusal) => REFUSED + refusal.number(),
    }
}

// Where two ConfStates disagree: the lines to the front of `out`, every byte after them kept; their length comes back, 0 where both mean the same. Else 2^32
// and the refusal, and `out` is as it was: 32 for a slice over 32 KiB; 28, 29 or 30 of the first, then of the second; 100 for lines longer than `out`.
pub fn dimecandle_compare(first: &[u8], second: &[u8], out: &mut [u8]) -> u64
    ensures { (result ≡ compare_answer first.now second.now (length out.old)) × (out.new ≡ compare_leaves first.now second.now out.old) }
{
    comparison::compare(first, second, out)
}

// The paper's number of a refusal, and the id that it names; else zeros.
fn number_and_id(answer: Result<(), Refusal>) -> (u64, u64)
    ensures { result ≡ (number_of (said answer), id_of (said answer)) }
{
    match answer {
        Ok(()) => (0, 0),
        Err(refusal) => (refusal.number(), refusal.id()),
    }
}

// What `call` answers to a request. Kept out of its caller: its locals are cleared on entry, which a request that is refused before is spared.
#[inline(never)]
fn reply_to(s: &[u8], call: Call) -> Reply
    ensures { result ≡ reply_for s.now call }
{
    let mut t = read::state(s);
    match call {
        Call::Check => from_outcome(invariants::check(&t), &t),
        Call::InOrder => from_yes(invariants::in_order(&t), &t),
        Call::Simple => from_answer(simple(s, &t), &t),
        Call::EnterJoint => from_answer(enter_joint(s, &t), &t),
        Call::LeaveJoint => from_answer(changer::leave_joint(&t), &t),
        Call::ApplyConf => {
            let answer = apply_conf(
                &mut t,
                &read::conf(s),
                &read::log(s),
                read::word(s, NEXT_IDX),
            );
            from_outcome(answer, &t)
        }
        Call::ToConfState => from_written(&t),
        Call::Restore => {
            let answer = restore(&mut t, &read::conf_state(s), read::word(s, NEXT_IDX));
            from_outcome(answer, &t)
        }
        Call::RestoreStepByStep => {
            let answer = restore_step_by_step(
                &mut t,
                &read::conf_state(s),
                read::word(s, NEXT_IDX),
            );
            from_outcome(answer, &t)
        }
    }
}

fn simple(s: &[u8], t: &Tracker) -> Result<Changed, Refusal>
    ensures { answered t.now.conf result ≡ simple_answer t.now (ids_in s.now) (kinds_in s.now) }
{
    let list = read::change_list(s);
    changer::simple(t, list.ids(), list.kinds())
}

fn enter_joint(s: &[u8], t: &Tracker) -> Result<Changed, Refusal>
    ensures { answered t.now.conf result ≡ enter_answer t.now (flag (word s.now 968)) (ids_in s.now) (kinds_in s.now) }
{
    let list = read::change_list(s);
    changer::enter_joint(t, read::word(s, AUTO_LEAVE) == 1, list.ids(), list.kinds())
}

// The state as it is after the call, and why the call is refused, where it is.
fn from_outcome(answer: Result<(), Refusal>, t: &Tracker) -> Reply
    ensures { result ≡ from_outcome (outcome_left t.now answer) }
{
    match answer {
        Ok(()) => accepted(t),
        Err(refusal) => refused(refusal, t),
    }
}

fn from_yes(yes: bool, t: &Tracker) -> Reply
    ensures { result ≡ reply_of 0 0 yes t.now no_log no_lists 0 }
{
    Reply { yes, ..accepted(t) }
}

// The state given, with the answered configuration.
fn from_answer(answer: Result<Changed, Refusal>, t: &Tracker) -> Reply
    ensures { result ≡ from_answer t.now (answered t.now.conf answer) }
{
    match answer {
        Ok(Changed { conf, log, idle }) => Reply {
            tracker: Tracker { conf, ..*t },
            log,
            idle,
            ..accepted(t)
        },
        Err(refusal) => refused(refusal, t),
    }
}

fn from_written(t: &Tracker) -> Reply
    ensures { result ≡ from_written t.now (written_of t.now) }
{
    match t.to_conf_state() {
        Ok(conf_state) => Reply {
            conf_state,
            ..accepted(t)
        },
        Err(refusal) => refused(refusal, t),
    }
}

// No refusal, and neither log nor lists.
fn accepted(t: &Tracker) -> Reply
    ensures { result ≡ reply_of 0 0 false t.now no_log no_lists 0 }
{
    Reply {
        number: 0,
        id: 0,
        yes: false,
        tracker: *t,
        log: ChangeLog::new(),
        conf_state: ConfState::new(),
        idle: 0,
    }
}

fn refused(refusal: Refusal, t: &Tracker) -> Reply
    ensures { result ≡ reply_of (number_at refusal) (id_at refusal) false t.now no_log no_lists 0 }
{
    Reply {
        number: refusal.number(),
        id: refusal.id(),
        ..accepted(t)
    }
}
