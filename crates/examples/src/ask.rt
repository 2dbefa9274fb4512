// A call made on a state, and a line printed: what is asked, in the paper's words, and what is answered. An accepted answer is applied; the state that is
// left comes back.
use crate::answered::{Checked, Restored, Told};
use crate::given::{Change, LastStep, fresh};
use changer::{Changed, enter_joint, leave_joint};
use progress::Progress;
use restore::{Changes, apply_answer, to_conf_change_single};
use std::io;
use tracker::refusal::Refusal;
use tracker::{ConfState, Tracker};

// The `next_idx` of the records that a call makes.
const NEXT_IDX: u64 = 77;

// One change more than a list may have, so that the refusal can be asked for.
const MOST: usize = changes::MAX_CHANGES + 1;

// `simple` with this list.
pub(crate) fn simple(
    rt: &impl Print,
    asked: &str,
    t: Tracker,
    list: &[Change],
) -> io::Result<Tracker> {
    let n = list.len().min(MOST);
    let ids = ids_of(list);
    let kinds = kinds_of(list);
    let answer = changer::simple(&t, &ids[..n], &kinds[..n]);
    told(rt, asked, t, answer)
}

// `enter_joint` with this list, without auto leave.
pub(crate) fn enter(
    rt: &impl Print,
    asked: &str,
    t: Tracker,
    list: &[Change],
) -> io::Result<Tracker> {
    let n = list.len().min(MOST);
    let ids = ids_of(list);
    let kinds = kinds_of(list);
    let answer = enter_joint(&t, false, &ids[..n], &kinds[..n]);
    told(rt, asked, t, answer)
}

// The ids of a list.
fn ids_of(list: &[Change]) -> [u64; MOST] {
    let mut ids = [0u64; MOST];
    for (id, change) in ids.iter_mut().zip(list) {
        *id = change.id();
    }
    ids
}

// The kinds of a list.
fn kinds_of(list: &[Change]) -> [u8; MOST] {
    let mut kinds = [0u8; MOST];
    for (kind, change) in kinds.iter_mut().zip(list) {
        *kind = change.kind();
    }
    kinds
}

// `enter_joint` with the list of a restore's last step, which says itself what is asked.
pub(crate) fn enter_last(
    rt: &impl Print,
    asked: &str,
    t: Tracker,
    cs: ConfState,
) -> io::Result<Tracker> {
    let list = to_conf_change_single(&cs);
    let step = LastStep(list);
    print!(rt; "{asked}enter {step}")?;
    let Changes { ids, kinds, len } = list;
    let n = len.min(changes::MAX_CHANGES);
    let answer = enter_joint(&t, false, &ids[..n], &kinds[..n]);
    told(rt, ": ", t, answer)
}

// `leave_joint`.
pub(crate) fn leave(rt: &impl Print, asked: &str, t: Tracker) -> io::Result<Tracker> {
    let answer = leave_joint(&t);
    told(rt, asked, t, answer)
}

// A call's line; what the call leaves once it is applied.
fn told(
    rt: &impl Print,
    asked: &str,
    mut t: Tracker,
    answer: Result<Changed, Refusal>,
) -> io::Result<Tracker> {
    let said = Told(answer);
    println!(rt; "{asked}{said}")?;
    let _ = apply_answer(&mut t, answer, NEXT_IDX);
    Ok(t)
}

// `restore` of the fresh state.
pub(crate) fn restore(rt: &impl Print, asked: &str, cs: ConfState) -> io::Result<Tracker> {
    let mut t = fresh();
    let result = restore::restore(&mut t, &cs, NEXT_IDX);
    restored(rt, asked, t, result)
}

// `restore_step_by_step` of the fresh state.
pub(crate) fn restore_step_by_step(
    rt: &impl Print,
    asked: &str,
    cs: ConfState,
) -> io::Result<Tracker> {
    let mut t = fresh();
    let result = restore::restore_step_by_step(&mut t, &cs, NEXT_IDX);
    restored(rt, asked, t, result)
}

// A restore's line; the state that it leaves.
fn restored(
    rt: &impl Print,
    asked: &str,
    t: Tracker,
    told: Result<(), Refusal>,
) -> io::Result<Tracker> {
    let outcome = Restored(told, t);
    println!(rt; "{asked}{outcome}")?;
    Ok(t)
}

// The check of a state.
pub(crate) fn check(rt: &impl Print, asked: &str, t: Tracker) -> io::Result<()> {
    let verdict = Checked(invariants::check(&t));
    println!(rt; "{asked}{verdict}")
}

// Whether a state is in order.
pub(crate) fn in_order(rt: &impl Print, asked: &str, t: Tracker) -> io::Result<()> {
    let answer = if invariants::in_order(&t) {
        "yes"
    } else {
        "no"
    };
    println!(rt; "{asked}{answer}")
}

// What tells a record in use from a fresh one.
pub(crate) fn record(rt: &impl Print, asked: &str, r: Progress) -> io::Result<()> {
    let Progress {
        matched,
        next_idx,
        ..
    } = r;
    println!(rt; "{asked}matched {matched}, next_idx {next_idx}")
}
