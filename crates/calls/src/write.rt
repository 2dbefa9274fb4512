// A reply, written as bytes: docs/EMBEDDING.md.
ghost use Rattle.std.specs.Prelude.{ℕ, List, ◌≡◌, [], ◌∷◌, ◌++◌};
ghost use Rattle.text.specs.Text.{each};
ghost use Rattle.text.specs.Writes.{Writes};
ghost use Rattle.calls.specs.Reply.{word_bytes, all_bytes, flag_word, set_words, list_words, conf_words, state_word, record_words, state_words, kind_word, entries_words, log_words, conf_state_words};
ghost use Rattle.calls.specs.Call.{reply_words};

use crate::Reply;
use progress::{Progress, ProgressState};
use text::Output;
use tracker::{ChangeLog, ConfState, Configuration, MapChange, MapChangeType, Tracker};

// The whole reply, as far as the output goes.
pub fn put_reply(to: &mut Output, r: &Reply)
    ensures { Writes to.old (all_bytes (reply_words r.now)) to.new }
{
    put_word(to, r.number);
    put_word(to, r.id);
    put_flag(to, r.yes);
    put_state(to, &r.tracker);
    put_log(to, &r.log);
    put_conf_state(to, &r.conf_state);
    put_word(to, r.idle as u64);
}

// 8 bytes, the least significant first; at once where there is room for all.
fn put_word(to: &mut Output, n: u64)
    ensures { Writes to.old (word_bytes n) to.new }
{
    let bytes = n.to_le_bytes();
    let at = to.at;
    if at < to.bytes.len() && 8 <= to.bytes.len() - at {
        to.bytes[at..at + 8].copy_from_slice(&bytes);
        to.at = at + 8;
        return;
    }
    to.put_bytes(&bytes);
}

fn put_flag(to: &mut Output, b: bool)
    ensures { Writes to.old (word_bytes (flag_word b)) to.new }
{
    put_word(to, u64::from(b));
}

// The items one after the other.
fn put_each<'a, T: Copy, F: Fn(&mut Output<'a>, T)>(to: &mut Output<'a>, items: &[T], put: F)
    requires { F.IsAlwaysCallable put }
    ensures { (f : T → List ℕ) → ((p : _) (x : T) (q : _) → F.post put p x tt q → Writes p.now (f x) q.now) → Writes to.old (each f items.now) to.new }
{
    // Read, so that it is known that the place is a usize.
    let _at = to.at;
    for item in items {
        put(to, *item);
    }
}

// Words one after the other.
fn put_words(to: &mut Output, ws: &[u64])
    ensures { Writes to.old (all_bytes ws.now) to.new }
{
    put_each(to, ws, put_word);
}

// Ids, and how many of them count: a SET or a list.
fn put_ids(to: &mut Output, ids: &[u64], len: usize)
    ensures { Writes to.old (all_bytes (ids.now ++ (len ∷ []))) to.new }
{
    put_words(to, ids);
    put_word(to, len as u64);
}

fn put_conf(to: &mut Output, conf: &Configuration)
    ensures { Writes to.old (all_bytes (conf_words conf.now)) to.new }
{
    put_ids(to, &conf.incoming.ids, conf.incoming.len);
    put_ids(to, &conf.outgoing.ids, conf.outgoing.len);
    put_ids(to, &conf.learners.ids, conf.learners.len);
    put_ids(to, &conf.learners_next.ids, conf.learners_next.len);
    put_flag(to, conf.auto_leave);
}

fn put_state(to: &mut Output, t: &Tracker)
    ensures { Writes to.old (all_bytes (state_words t.now)) to.new }
{
    put_conf(to, &t.conf);
    put_ids(to, &t.ids.ids, t.ids.len);
    put_each(to, &t.records, put_record);
    put_word(to, t.max_inflight);
}

#[tactic(auto, unfolding(crate::specs::Reply::record_words))]
fn put_record(to: &mut Output, p: Progress)
    ensures { Writes to.old (all_bytes (record_words p)) to.new }
{
    let words = [
        p.matched,
        p.next_idx,
        state_word(p.state),
        u64::from(p.paused),
        p.pending_snapshot,
        p.pending_request_snapshot,
        u64::from(p.recent_active),
        p.max_inflight,
        p.commit_group_id,
        p.committed_index,
    ];
    put_words(to, &words);
}

// 0 Probe, 1 Replicate, 2 Snapshot.
fn state_word(s: ProgressState) -> u64
    ensures { result ≡ state_word s }
{
    match s {
        ProgressState::Probe => 0,
        ProgressState::Replicate => 1,
        ProgressState::Snapshot => 2,
    }
}

fn put_log(to: &mut Output, log: &ChangeLog)
    ensures { Writes to.old (all_bytes (log_words log.now)) to.new }
{
    put_each(to, &log.entries, put_entry);
    put_word(to, log.count as u64);
}

#[tactic(auto, unfolding(crate::specs::Reply::entries_words))]
fn put_entry(to: &mut Output, e: MapChange)
    ensures { Writes to.old (all_bytes (entries_words (e ∷ []))) to.new }
{
    put_words(to, &[e.id, kind_word(e.kind)]);
}

// 0 Add, 1 Remove.
fn kind_word(k: MapChangeType) -> u64
    ensures { result ≡ kind_word k }
{
    match k {
        MapChangeType::Add => 0,
        MapChangeType::Remove => 1,
    }
}

fn put_conf_state(to: &mut Output, cs: &ConfState)
    ensures { Writes to.old (all_bytes (conf_state_words cs.now)) to.new }
{
    put_ids(to, &cs.voters.ids, cs.voters.len);
    put_ids(to, &cs.learners.ids, cs.learners.len);
    put_ids(to, &cs.voters_outgoing.ids, cs.voters_outgoing.len);
    put_ids(to, &cs.learners_next.ids, cs.learners_next.len);
    put_flag(to, cs.auto_leave);
}
