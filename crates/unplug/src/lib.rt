// Can this box be unplugged? Document 02, d): number and id of `simple` with the removal of one box, of any state, without the call. The state is lent
// as the words of a STATE (docs/EMBEDDING.md) and read where they stand: no copy of it, no log and no configuration is made.
#![tactic(auto)]

ghost use Rattle.std.specs.Prelude.{◌≡◌, ℕ, true, not, ◌&&◌, ◌+◌, ◌*◌, ◌≤◌};
ghost use Rattle.rules.specs.Unplug.{voter_left};
ghost use Rattle.idset.specs.Set.{held, well_formed};
ghost use Rattle.tracker.specs.Apply.{verdict_of};
ghost use Rattle.tracker.specs.Form.{conf_well_formed, tracker_well_formed};
ghost use Rattle.tracker.specs.Refusals.{said};
ghost use Rattle.changer.specs.Before.{own_check};
ghost use Rattle.changer.specs.Calls.{unplug_of};
ghost use Rattle.unplug.specs.Words.{at as word_in, set_by, within_by};
ghost use Rattle.unplug.specs.Unplugs.{answered, answered_of, state_in, state_holds_in};

use crate::layout::{
    AUTO_LEAVE, INCOMING, LEARNERS, LEARNERS_NEXT, OUTGOING, PAUSED, RECENT_ACTIVE, RECORD,
    RECORD_STATE, RECORDS, RECORDS_END, TRACKED, WORDS,
};
use idset::IdSet;
use tracker::Tracker;
use tracker::refusal::Refusal;

pub mod layout; // the places in a STATE

// A STATE in words.
type State = [u64; WORDS];

// Why words are no STATE: there are not 967, or no field can hold one of them.
#[derive(Clone, Copy, Debug, PartialEq, Eq)]
pub enum Unfit {
    Length,
    Word,
}

// Whether the box `id` of a state in words can be unplugged, or why not.
#[tactic(auto, unfolding(crate::specs::Unplugs::answered_of))]
pub fn unplug(state: &[u64], id: u64) -> Result<Result<(), Refusal>, Unfit>
    ensures { answered result ≡ answered_of state.now id }
{
    let Some(state) = state.as_array::<WORDS>() else {
        return Err(Unfit::Length);
    };
    if !holds(state) {
        return Err(Unfit::Word);
    }
    Ok(answer(state, id))
}

// 1; 6; the check; 17.
#[tactic(auto, using(crate::proofs::Unplugged::unplug_tests))]
fn answer(s: &State, id: u64) -> Result<(), Refusal>
    requires { state_holds_in s.now ≡ true }
    ensures { verdict_of (said result) ≡ unplug_of (state_in s.now) id }
{
    if malformed(s) {
        return Err(Refusal::Malformed);
    }
    if !held_at(s, OUTGOING).is_empty() {
        return Err(Refusal::SimpleWhileJoint);
    }
    check(s)?;
    if none_left(held_at(s, INCOMING), id) {
        return Err(Refusal::NoVoterLeft);
    }
    Ok(())
}

// Word `k`, 0 where there is none.
fn word(s: &State, k: usize) -> u64
    ensures { result ≡ word_in s.now k }
{
    s.get(k).copied().unwrap_or(0)
}

// Whether every word can be held by its field: the flag, and of each record its state and its two flags.
#[tactic(auto, unfolding(crate::specs::Unplugs::state_holds_in))]
fn holds(s: &State) -> bool
    ensures { result ≡ state_holds_in s.now }
{
    words_at_most(s, AUTO_LEAVE, 1, 1, 1)
        && words_at_most(s, RECORDS + RECORD_STATE, Tracker::CAPACITY, RECORD, 2)
        && words_at_most(s, RECORDS + PAUSED, Tracker::CAPACITY, RECORD, 1)
        && words_at_most(s, RECORDS + RECENT_ACTIVE, Tracker::CAPACITY, RECORD, 1)
}

// Whether `n` words from `k` on, `step` apart, are at most `most`. Put into its caller, where `n` and `step` are known.
#[inline(always)]
fn words_at_most(s: &State, k: usize, n: usize, step: usize, most: u64) -> bool
    requires { k + n * step ≤ 4096 }
    ensures { result ≡ within_by n most step (word_in s.now) k }
{
    for i in 0..n {
        if most < word(s, k + i * step) {
            return false;
        }
    }
    true
}

// The same of the words that `word` gives, wherever the caller reads them.
pub fn at_most<F: Fn(usize) -> u64>(word: F, k: usize, n: usize, step: usize, most: u64) -> bool
    requires callable { F.IsAlwaysCallable word }
    requires room { k + n * step ≤ 4096 }
    ensures { (f : ℕ → ℕ) → ((i r : ℕ) → F.post word i r → r ≡ f i) → result ≡ within_by n most step f k }
{
    for i in 0..n {
        if most < word(k + i * step) {
            return false;
        }
    }
    true
}

// Whether the state is malformed: one of its sets, or a record after the tracked ones that is not unused, which is ten zeros.
fn malformed(s: &State) -> bool
    requires { state_holds_in s.now ≡ true }
    ensures { result ≡ not (tracker_well_formed (state_in s.now)) }
{
    if a_set_malformed(s) {
        return true;
    }
    let tracked = word(s, TRACKED + IdSet::CAPACITY) as usize;
    !idset::zero_from(&s[RECORDS..RECORDS_END], RECORD * tracked)
}

// Whether one of the sets is malformed.
#[tactic(auto, unfolding(tracker::specs::Form::conf_well_formed))]
fn a_set_malformed(s: &State) -> bool
    ensures { result ≡ not (conf_well_formed (state_in s.now).conf && well_formed (state_in s.now).ids) }
{
    malformed_at(s, INCOMING)
        || malformed_at(s, OUTGOING)
        || malformed_at(s, LEARNERS)
        || malformed_at(s, LEARNERS_NEXT)
        || malformed_at(s, TRACKED)
}

// Whether the set at `k` is malformed.
fn malformed_at(s: &State, k: usize) -> bool
    requires { k + 64 ≤ 967 }
    ensures { result ≡ not (well_formed (set_by (word_in s.now) k)) }
{
    idset::malformed_in(
        &s[k..k + IdSet::CAPACITY],
        word(s, k + IdSet::CAPACITY) as usize,
    )
}

// The check.
#[tactic(auto, unfolding(invariants::specs::Check::check_walk))]
fn check(s: &State) -> Result<(), Refusal>
    ensures { said result ≡ own_check (state_in s.now) }
{
    let incoming = held_at(s, INCOMING);
    let outgoing = held_at(s, OUTGOING);
    let tracked = held_at(s, TRACKED);
    invariants::check_voters(incoming, outgoing, tracked)?;
    invariants::check_learners(held_at(s, LEARNERS), outgoing, incoming, tracked)?;
    invariants::check_staged(
        held_at(s, LEARNERS_NEXT),
        outgoing,
        word(s, AUTO_LEAVE) == 1,
        tracked,
    )
}

// The ids that the set at `k` holds.
fn held_at(s: &State, k: usize) -> &[u64]
    requires { k + 64 ≤ 967 }
    ensures { result.now ≡ held (set_by (word_in s.now) k) }
{
    let ids = &s[k..k + IdSet::CAPACITY];
    let count = word(s, k + IdSet::CAPACITY) as usize;
    &ids[..count.min(ids.len())]
}

// Whether none of `voters` is left without `id`. A removal of 0 is skipped.
fn none_left(voters: &[u64], id: u64) -> bool
    ensures { result ≡ not (voter_left id voters.now) }
{
    if id == 0 {
        return voters.is_empty();
    }
    voters.iter().all(|voter| *voter == id)
}

#[cfg(test)]
mod tests; // what a caller of `at_most` gets
