// `Changer` of src/confchange/changer.rs: configuration changes, simple and joint, with the validation that refuses invalid ones before they
// affect the active configuration. Each call takes the whole state, and a change list as ids and kinds; it answers the configuration and the log,
// or why it is refused. Tracked ids and records change only in `apply_conf`.
#![tactic(auto)]

ghost use Rattle.std.specs.Prelude.{◌≡◌, Ok};
ghost use Rattle.rules.specs.Calls as rules;
ghost use Rattle.idset.specs.Set.{held};
ghost use Rattle.tracker.specs.Apply.{verdict_of};
ghost use Rattle.tracker.specs.Bridge.{conf_of, entry_of, log_of, change_log_of};
ghost use Rattle.tracker.specs.Refusals.{said};
ghost use Rattle.invariants.specs.Check.{check_walk};
ghost use Rattle.changer.specs.Calls.{answered, enter_answer, leave_answer, simple_answer};
ghost use Rattle.changer.specs.Before.{any_above2, may_enter, may_leave, may_simple};
ghost use Rattle.changer.specs.Stages.{entering_in, carried_in, pending_one, pending_in, leaving_in, gone_walk};

use changes::Work;
use idset::IdSet;
use invariants::{check_invariants, joint};
use tracker::refusal::Refusal;
use tracker::{ChangeLog, Configuration, MapChange, MapChangeType, Tracker};

// What an accepted call comes to: the new configuration, the log, and how many entries of the list did nothing.
#[derive(Clone, Copy)]
pub struct Changed {
    pub conf: Configuration,
    pub log: ChangeLog,
    pub idle: usize,
}

// Verifies that the outgoing (=right) majority config of the joint config is empty and initializes it with a copy of the incoming (=left)
// majority config. That is, it transitions from (1 2 3)&&() to (1 2 3)&&(1 2 3). The supplied changes are then applied to the incoming
// majority config, resulting in a joint configuration that in terms of the Raft thesis (section 4.3) corresponds to C_{new,old}.
pub fn enter_joint(
    t: &Tracker,
    auto_leave: bool,
    ids: &[u64],
    kinds: &[u8],
) -> Result<Changed, Refusal>
    ensures { answered t.now.conf result ≡ enter_answer t.now auto_leave ids.now kinds.now }
{
    may_enter(t, ids, kinds)?;
    let mut changed = carry_out(&t.ids, entering(&t.conf), ids, kinds)?;
    changed.conf.auto_leave = auto_leave;
    check_again(&t.ids, &changed)?;
    Ok(changed)
}

// Transitions out of a joint configuration: the outgoing majority config is removed, that is, the incoming config is promoted as the sole
// decision maker. At the same time, any staged learners will be inserted into learners. In the notation of the Raft thesis (section 4.3),
// this transitions from C_{new,old} into C_new.
pub fn leave_joint(t: &Tracker) -> Result<Changed, Refusal>
    ensures { answered t.now.conf result ≡ leave_answer t.now }
{
    may_leave(t)?;
    let changed = leave(&t.conf);
    check_again(&t.ids, &changed)?;
    Ok(changed)
}

// Carries out a series of configuration changes that (in aggregate) mutates the incoming majority config by at most one. It is refused if that
// is not the case, if the resulting quorum is zero, or if the configuration is in a joint state.
pub fn simple(t: &Tracker, ids: &[u64], kinds: &[u8]) -> Result<Changed, Refusal>
    ensures { answered t.now.conf result ≡ simple_answer t.now ids.now kinds.now }
{
    may_simple(t, ids, kinds)?;
    let changed = carry_out(&t.ids, t.conf, ids, kinds)?;
    let new = changed.conf.incoming.as_slice();
    let old = t.conf.incoming.as_slice();
    if idset::two_apart(new, old) {
        return Err(Refusal::TwoVotersChanged);
    }
    check_again(&t.ids, &changed)?;
    Ok(changed)
}

// 2, 3.
fn readable(ids: &[u64], kinds: &[u8]) -> Result<(), Refusal>
    ensures { said result ≡ rules.readable ids.now kinds.now }
{
    if ids.len() != kinds.len() || changes::MAX_CHANGES < ids.len() {
        return Err(Refusal::ListTooLong);
    }
    if above_2(kinds) {
        return Err(Refusal::KindAbove2);
    }
    Ok(())
}

// Whether a kind is above 2.
fn above_2(kinds: &[u8]) -> bool
    ensures { result ≡ any_above2 kinds.now }
{
    kinds.iter().any(|kind| 2 < *kind)
}

// 1, 2, 3; 4; the check; 15.
fn may_enter(t: &Tracker, ids: &[u64], kinds: &[u8]) -> Result<(), Refusal>
    ensures { verdict_of (said result) ≡ may_enter t.now ids.now kinds.now }
{
    if t.is_malformed() {
        return Err(Refusal::Malformed);
    }
    readable(ids, kinds)?;
    if joint(&t.conf) {
        return Err(Refusal::AlreadyJoint);
    }
    check_invariants(&t.conf, &t.ids)?;
    if t.conf.incoming.is_empty() {
        // We allow adding nodes to an empty config for convenience (testing and bootstrap), but you can't enter a joint state.
        return Err(Refusal::EnterWithoutVoter);
    }
    Ok(())
}

// 1; 5; the check.
fn may_leave(t: &Tracker) -> Result<(), Refusal>
    ensures { verdict_of (said result) ≡ may_leave t.now }
{
    if t.is_malformed() {
        return Err(Refusal::Malformed);
    }
    if !joint(&t.conf) {
        return Err(Refusal::NotJoint);
    }
    check_invariants(&t.conf, &t.ids)
}

// 1, 2, 3; 6; the check.
fn may_simple(t: &Tracker, ids: &[u64], kinds: &[u8]) -> Result<(), Refusal>
    ensures { verdict_of (said result) ≡ may_simple t.now ids.now kinds.now }
{
    if t.is_malformed() {
        return Err(Refusal::Malformed);
    }
    readable(ids, kinds)?;
    if joint(&t.conf) {
        return Err(Refusal::SimpleWhileJoint);
    }
    check_invariants(&t.conf, &t.ids)
}

// Outgoing a copy of incoming.
fn entering(conf: &Configuration) -> Configuration
    ensures { result ≡ entering_in conf.now }
{
    let mut entered = *conf;
    entered.outgoing = conf.incoming;
    entered
}

// The changes, stopping at the first 16; 17.
fn carry_out(
    tracked: &IdSet,
    conf: Configuration,
    ids: &[u64],
    kinds: &[u8],
) -> Result<Changed, Refusal>
    ensures { answered conf result ≡ carried_in tracked.now conf ids.now kinds.now }
{
    let base = tracked.as_slice();
    let mut work = Work {
        conf,
        log: ChangeLog::new(),
        tracked: tracked.len.min(IdSet::CAPACITY),
        idle: 0,
    };
    changes::apply(&mut work, base, ids, kinds)?;
    if work.conf.incoming.is_empty() {
        return Err(Refusal::NoVoterLeft);
    }
    Ok(Changed {
        conf: work.conf,
        log: work.log,
        idle: work.idle,
    })
}

// The check again, of what is answered: with the ids that are tracked once the log is applied.
fn check_again(tracked: &IdSet, changed: &Changed) -> Result<(), Refusal>
    ensures { said result ≡ check_walk (held (pending_in (log_of changed.now.log) tracked.now)) (conf_of changed.now.conf) }
{
    check_invariants(&changed.conf, &tracked_after(tracked, &changed.log))
}

// The tracked ids with the log over them.
fn tracked_after(tracked: &IdSet, log: &ChangeLog) -> IdSet
    ensures { result ≡ pending_in (log_of log.now) tracked.now }
{
    let mut ids = *tracked;
    for entry in log.entries.iter().take(log.count) {
        track(&mut ids, *entry);
    }
    ids
}

// One entry over the tracked ids; a full set takes no id more.
fn track(ids: &mut IdSet, entry: MapChange)
    ensures { ids.new ≡ pending_one (entry_of entry) ids.old }
{
    match entry.kind {
        MapChangeType::Add => {
            let _ = ids.insert(entry.id);
        }
        MapChangeType::Remove => {
            ids.remove(entry.id);
        }
    }
}

// Staged ids join learners; each outgoing id now neither incoming nor learner is logged Remove; outgoing empties; the flag is false.
#[inline(never)]
fn leave(conf: &Configuration) -> Changed
    ensures { answered conf.now (Ok result) ≡ leaving_in conf.now }
{
    let staged = conf.learners_next;
    let learners = staged.union(&conf.learners).unwrap_or(staged);
    let log = removals(conf.outgoing, &conf.incoming, &learners);
    let none = IdSet::new();
    let left = Configuration {
        incoming: conf.incoming,
        outgoing: none,
        learners,
        learners_next: none,
        auto_leave: false,
    };
    Changed {
        conf: left,
        log,
        idle: 0,
    }
}

// A Remove for each outgoing id that is neither incoming nor learner, ascending: the three sets are walked side by side.
fn removals(outgoing: IdSet, incoming: &IdSet, learners: &IdSet) -> ChangeLog
    ensures { result ≡ change_log_of (rules.removals (gone_walk (held outgoing) (held incoming.now) (held learners.now))) }
{
    let (voters, others) = (incoming.as_slice(), learners.as_slice());
    let mut log = ChangeLog::new();
    let mut voter = 0;
    let mut learner = 0;
    for id in outgoing.as_slice() {
        voter = idset::seek(voters, voter, *id);
        learner = idset::seek(others, learner, *id);
        let is_voter = idset::stands_at(voters, voter, *id);
        let is_learner = idset::stands_at(others, learner, *id);
        if !is_voter && !is_learner {
            changes::push(&mut log, *id, MapChangeType::Remove);
        }
    }
    log
}
