// The check, `check_invariants` of src/confchange/changer.rs, and in order. Sets are ascending, so each test walks two of them side by side.
#![tactic(auto)]

ghost use Rattle.std.specs.Prelude.{◌≡◌, true};
ghost use Rattle.idset.specs.Set.{held};
ghost use Rattle.tracker.specs.Bridge.{conf_of};
ghost use Rattle.rules.specs.Check as rules;
ghost use Rattle.tracker.specs.Apply.{verdict_of};
ghost use Rattle.tracker.specs.Refusals.{said};
ghost use Rattle.invariants.specs.Walk.{first_where, first_out, first_in, fault_at, sooner};
ghost use Rattle.invariants.specs.Check.{voters_walk, learners_walk, staged_walk, single_walk, rest_walk, check_walk, are_members, are_apart, check_of, in_order_of};

use idset::IdSet;
use tracker::refusal::Refusal;
use tracker::{Configuration, Tracker};

// Whether the configuration is joint.
pub fn joint(conf: &Configuration) -> bool
    ensures { result ≡ rules.joint (conf_of conf.now) }
{
    !conf.outgoing.is_empty()
}

// Makes sure that the config and progress are compatible with each other: the first fault, in the order of document 01.
#[tactic(auto, unfolding(crate::specs::Check::check_walk))]
pub fn check_invariants(conf: &Configuration, ids: &IdSet) -> Result<(), Refusal>
    ensures { said result ≡ check_walk (held ids.now) (conf_of conf.now) }
{
    let tracked = ids.as_slice();
    let incoming = conf.incoming.as_slice();
    let outgoing = conf.outgoing.as_slice();
    check_voters(incoming, outgoing, tracked)?;
    check_learners(conf.learners.as_slice(), outgoing, incoming, tracked)?;
    check_staged(
        conf.learners_next.as_slice(),
        outgoing,
        conf.auto_leave,
        tracked,
    )
}

// 7: voters of incoming or outgoing, ascending.
pub fn check_voters(incoming: &[u64], outgoing: &[u64], ids: &[u64]) -> Result<(), Refusal>
    ensures { said result ≡ voters_walk ids.now incoming.now outgoing.now }
{
    sooner(voters_tracked(incoming, ids), voters_tracked(outgoing, ids))
}

// 8, 9, 10 for each learner.
pub fn check_learners(
    learners: &[u64],
    outgoing: &[u64],
    incoming: &[u64],
    ids: &[u64],
) -> Result<(), Refusal>
    ensures { said result ≡ learners_walk ids.now incoming.now outgoing.now learners.now }
{
    sooner(
        learners_tracked(learners, ids),
        sooner(
            learners_not_outgoing(learners, outgoing),
            learners_not_incoming(learners, incoming),
        ),
    )
}

// 11, 12 for each staged id; then, if not joint, 13 and 14. 13 has its place in the order and is never given: where it would be, 11 or 12 came first.
pub fn check_staged(
    staged: &[u64],
    outgoing: &[u64],
    auto_leave: bool,
    ids: &[u64],
) -> Result<(), Refusal>
    ensures { said result ≡ rest_walk ids.now outgoing.now staged.now auto_leave }
{
    check_each_staged(staged, outgoing, ids)?;
    check_single(!outgoing.is_empty(), !staged.is_empty(), auto_leave)
}

// 11, 12 for each staged id.
fn check_each_staged(staged: &[u64], outgoing: &[u64], ids: &[u64]) -> Result<(), Refusal>
    ensures { said result ≡ staged_walk ids.now outgoing.now staged.now }
{
    sooner(
        staged_tracked(staged, ids),
        staged_outgoing(staged, outgoing),
    )
}

// 7
fn voters_tracked(voters: &[u64], ids: &[u64]) -> Result<(), Refusal>
    ensures { said result ≡ fault_at (first_out voters.now ids.now) 7 }
{
    match first_where(voters, ids, false) {
        Some(id) => Err(Refusal::VoterNotTracked(id)),
        None => Ok(()),
    }
}

// 8
fn learners_tracked(learners: &[u64], ids: &[u64]) -> Result<(), Refusal>
    ensures { said result ≡ fault_at (first_out learners.now ids.now) 8 }
{
    match first_where(learners, ids, false) {
        Some(id) => Err(Refusal::LearnerNotTracked(id)),
        None => Ok(()),
    }
}

// 9
fn learners_not_outgoing(learners: &[u64], outgoing: &[u64]) -> Result<(), Refusal>
    ensures { said result ≡ fault_at (first_in learners.now outgoing.now) 9 }
{
    match first_where(learners, outgoing, true) {
        Some(id) => Err(Refusal::LearnerIsOutgoing(id)),
        None => Ok(()),
    }
}

// 10
fn learners_not_incoming(learners: &[u64], incoming: &[u64]) -> Result<(), Refusal>
    ensures { said result ≡ fault_at (first_in learners.now incoming.now) 10 }
{
    match first_where(learners, incoming, true) {
        Some(id) => Err(Refusal::LearnerIsIncoming(id)),
        None => Ok(()),
    }
}

// 11
fn staged_tracked(staged: &[u64], ids: &[u64]) -> Result<(), Refusal>
    ensures { said result ≡ fault_at (first_out staged.now ids.now) 11 }
{
    match first_where(staged, ids, false) {
        Some(id) => Err(Refusal::StagedNotTracked(id)),
        None => Ok(()),
    }
}

// 12
fn staged_outgoing(staged: &[u64], outgoing: &[u64]) -> Result<(), Refusal>
    ensures { said result ≡ fault_at (first_out staged.now outgoing.now) 12 }
{
    match first_where(staged, outgoing, false) {
        Some(id) => Err(Refusal::StagedNotOutgoing(id)),
        None => Ok(()),
    }
}

// 13, 14: if not joint; whether there is a staged id, and the flag.
fn check_single(is_joint: bool, staged: bool, auto_leave: bool) -> Result<(), Refusal>
    ensures { said result ≡ single_walk is_joint staged auto_leave }
{
    if is_joint {
        Ok(())
    } else if staged {
        Err(Refusal::StagedWhileNotJoint)
    } else if auto_leave {
        Err(Refusal::AutoLeaveWhileNotJoint)
    } else {
        Ok(())
    }
}

// The fault at the lesser id; the first of the two where both are at one id.
fn sooner(v: Result<(), Refusal>, w: Result<(), Refusal>) -> Result<(), Refusal>
    ensures { said result ≡ sooner (said v) (said w) }
{
    match (v, w) {
        (Err(a), Err(b)) => if b.id() < a.id() { w } else { v },
        (Ok(()), _) => w,
        (Err(_), Ok(())) => v,
    }
}

// The first of `a` that is among `b`, where `among` is true, or is not, where it is false; both ascending and walked
// side by side.
pub fn first_where(a: &[u64], b: &[u64], among: bool) -> Option<u64>
    ensures { result ≡ first_where among a.now b.now }
{
    let mut place = 0;
    for &id in a {
        place = idset::seek(b, place, id);
        if idset::stands_at(b, place, id) == among {
            return Some(id);
        }
    }
    None
}

// The check, asked of any state: 1 first.
#[tactic(auto, using(crate::proofs::Order::check_walks))]
pub fn check(t: &Tracker) -> Result<(), Refusal>
    ensures { verdict_of (said result) ≡ check_of t.now }
{
    if t.is_malformed() {
        return Err(Refusal::Malformed);
    }
    check_invariants(&t.conf, &t.ids)
}

// In order: well formed, passes the check, no id 0 anywhere, tracked ids exactly those in at least one of the four sets, no staged id an incoming
// voter.
#[tactic(auto, using(crate::proofs::Order::order_walks))]
pub fn in_order(t: &Tracker) -> bool
    ensures { result ≡ in_order_of t.now }
{
    check(t).is_ok() && !t.ids.contains(0) && are_members(&t.conf, &t.ids) && are_apart(&t.conf)
}

// Whether all of the tracked ids are in at least one of the four sets: a walk along their union.
fn are_members(conf: &Configuration, ids: &IdSet) -> bool
    ensures { result ≡ are_members (held ids.now) conf.now }
{
    let voters = conf.incoming.union(&conf.outgoing).unwrap_or(conf.incoming);
    let others = conf
        .learners
        .union(&conf.learners_next)
        .unwrap_or(conf.learners);
    let members = voters.union(&others).unwrap_or(voters);
    first_where(ids.as_slice(), members.as_slice(), false).is_none()
}

// Whether no staged id is an incoming voter: a walk along both sets.
fn are_apart(conf: &Configuration) -> bool
    ensures { result ≡ are_apart (conf_of conf.now) }
{
    first_where(
        conf.learners_next.as_slice(),
        conf.incoming.as_slice(),
        true,
    )
    .is_none()
}
