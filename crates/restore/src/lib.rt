// `restore` of src/confchange/restore.rs: the configuration that a `ConfState` describes, one step after the other. Here `restore` is whole, and the
// Rust's is `restore_step_by_step`: document 02, g).
#![tactic(auto)]

ghost use Rattle.std.specs.Prelude.{◌≡◌, true, false, [], ◌∷◌, ◌≤◌, ◌<◌};
ghost use Rattle.changes.specs.Table.{kind_named};
ghost use Rattle.rules.specs.Ids.{is_empty};
ghost use Rattle.rules.specs.Restore.{all, enter_step, one_by_one, wanted};
ghost use Rattle.tracker.specs.Apply.{outcome_left};
ghost use Rattle.tracker.specs.Bridge.{entries_in, lists_of};
ghost use Rattle.tracker.specs.Form.{tracker_well_formed};
ghost use Rattle.changer.specs.Calls.{simple_answer, answered};
ghost use Rattle.restore.specs.Restore.{applied_to, too_long, steps_of, step_by_step_of, restore_of};
ghost use Rattle.restore.specs.Steps.{Appended, Listed, Pushed, entered, joint_steps, no_changes, number_in};

use changer::{Changed, enter_joint, simple};
use changes::table::Kind;
use tracker::apply::apply_conf;
use tracker::refusal::Refusal;
use tracker::{ConfState, IdList, Tracker};

// A change list: the first `len` of `ids` and of `kinds`.
#[derive(Clone, Copy)]
pub struct Changes {
    pub ids: [u64; changes::MAX_CHANGES],
    pub kinds: [u8; changes::MAX_CHANGES],
    pub len: usize,
}

// The configuration described in the ConfState; where a step is refused, none stays.
pub fn restore(t: &mut Tracker, cs: &ConfState, next_idx: u64) -> Result<(), Refusal>
    ensures { outcome_left t.new result ≡ restore_of t.old cs.now next_idx }
{
    let given = *t;
    let result = restore_step_by_step(t, cs, next_idx);
    if result.is_err() {
        *t = given;
    }
    result
}

// Runs a sequence of changes enacting the configuration described in the ConfState. A refused step ends it; earlier steps stay.
pub fn restore_step_by_step(t: &mut Tracker, cs: &ConfState, next_idx: u64) -> Result<(), Refusal>
    ensures { outcome_left t.new result ≡ step_by_step_of t.old cs.now next_idx }
{
    if t.is_malformed() {
        return Err(Refusal::Malformed);
    }
    if too_long(cs) {
        return Err(Refusal::ListTooLong);
    }
    if nothing_listed(&cs.voters_outgoing) {
        return restore_single(t, cs, next_idx);
    }
    restore_joint(t, cs, next_idx)
}

// Whether one of the four lists is over 64.
fn too_long(cs: &ConfState) -> bool
    ensures { result ≡ too_long cs.now }
{
    [
        cs.voters.len,
        cs.learners.len,
        cs.voters_outgoing.len,
        cs.learners_next.len,
    ]
    .iter()
    .any(|len| IdList::CAPACITY < *len)
}

// Whether a list has no entry.
fn nothing_listed(list: &IdList) -> bool
    ensures { result ≡ is_empty (entries_in list.now) }
{
    list.len == 0
}

// No outgoing: each voter, learner and staged id in list order as a `simple` of its own; the flag is ignored.
fn restore_single(t: &mut Tracker, cs: &ConfState, next_idx: u64) -> Result<(), Refusal>
    requires { tracker_well_formed t.old ≡ true }
    ensures { outcome_left t.new result ≡ steps_of t.old next_idx (one_by_one (wanted (lists_of cs.now))) }
{
    one_by_one(t, &cs.voters, Kind::AddNode, next_idx)?;
    one_by_one(t, &cs.learners, Kind::AddLearnerNode, next_idx)?;
    one_by_one(t, &cs.learners_next, Kind::AddLearnerNode, next_idx)
}

// If there are outgoing voters, first add them one by one so that the (non-joint) config has them all; then enter.
fn restore_joint(t: &mut Tracker, cs: &ConfState, next_idx: u64) -> Result<(), Refusal>
    requires { tracker_well_formed t.old ≡ true }
    ensures { outcome_left t.new result ≡ steps_of t.old next_idx (joint_steps cs.now) }
{
    one_by_one(t, &cs.voters_outgoing, Kind::AddNode, next_idx)?;
    enter(t, cs, next_idx)
}

// One `enter_joint` with the changes that lead from the outgoing voters to the rest, and the flag.
fn enter(t: &mut Tracker, cs: &ConfState, next_idx: u64) -> Result<(), Refusal>
    requires { tracker_well_formed t.old ≡ true }
    ensures { outcome_left t.new result ≡ steps_of t.old next_idx (enter_step cs.now.auto_leave (entered cs.now) ∷ []) }
{
    let incoming = to_conf_change_single(cs);
    let n = incoming.len;
    let answer = enter_joint(t, cs.auto_leave, &incoming.ids[..n], &incoming.kinds[..n]);
    apply_answer(t, answer, next_idx)
}

// Each id of the list as a `simple` of its own, of this kind.
fn one_by_one(t: &mut Tracker, list: &IdList, kind: Kind, next_idx: u64) -> Result<(), Refusal>
    requires { tracker_well_formed t.old ≡ true }
    ensures { outcome_left t.new result ≡ steps_of t.old next_idx (one_by_one (all (kind_named kind) (entries_in list.now))) }
{
    for id in list.ids.iter().take(list.len) {
        step(t, *id, kind, next_idx)?;
    }
    Ok(())
}

// One change as a `simple` of its own, applied.
fn step(t: &mut Tracker, id: u64, kind: Kind, next_idx: u64) -> Result<(), Refusal>
    ensures { outcome_left t.new result ≡ applied_to t.old (simple_answer t.old (id ∷ []) (number_in kind ∷ [])) next_idx }
{
    let answer = simple(t, &[id], &[number_of(kind)]);
    apply_answer(t, answer, next_idx)
}

// A kind's number in a change list.
fn number_of(kind: Kind) -> u8
    ensures { result ≡ number_in kind }
{
    match kind {
        Kind::AddNode => 0,
        Kind::RemoveNode => 1,
        Kind::AddLearnerNode => 2,
    }
}

// An accepted answer is applied at once to the state that it was asked of; a refused one leaves it.
pub fn apply_answer(
    t: &mut Tracker,
    answer: Result<Changed, Refusal>,
    next_idx: u64,
) -> Result<(), Refusal>
    ensures { outcome_left t.new result ≡ applied_to t.old (answered t.old.conf answer) next_idx }
{
    let changed = answer?;
    apply_conf(t, &changed.conf, &changed.log, next_idx)
}

// Translates a conf state into the operations that, when applied to the config made of the outgoing voters, represent it: remove each outgoing,
// add each voter, add-learner each learner, then each staged.
pub fn to_conf_change_single(cs: &ConfState) -> Changes
    ensures { Listed result (entered cs.now) }
{
    let mut list = Changes::new();
    list.append(&cs.voters_outgoing, Kind::RemoveNode);
    list.append(&cs.voters, Kind::AddNode);
    list.append(&cs.learners, Kind::AddLearnerNode);
    list.append(&cs.learners_next, Kind::AddLearnerNode);
    list
}

impl Changes {
    // No change.
    fn new() -> Self
        ensures { result ≡ no_changes }
    {
        Changes {
            ids: [0; changes::MAX_CHANGES],
            kinds: [0; changes::MAX_CHANGES],
            len: 0,
        }
    }

    // One change more.
    fn push(&mut self, id: u64, kind: Kind)
        requires { self.old.len < 256 }
        ensures { Pushed self.old id (number_in kind) self.new }
    {
        self.ids[self.len] = id;
        self.kinds[self.len] = number_of(kind);
        self.len += 1;
    }

    // A change of this kind for each id of `added` more.
    fn append(&mut self, added: &IdList, kind: Kind)
        requires { self.old.len ≤ 192 }
        ensures { Appended self.old added.now (number_in kind) self.new }
    {
        for id in added.ids.iter().take(added.len) {
            self.push(*id, kind);
        }
    }
}
