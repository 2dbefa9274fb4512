// A request, read off its bytes: docs/EMBEDDING.md. Places are counted in words.
ghost use Rattle.std.specs.Prelude.{◌≡◌, ◌+◌, ◌*◌, ◌≤◌, length, min, take};
ghost use Rattle.unplug.specs.Words.{state_named};
ghost use Rattle.calls.specs.Layout.{number, word as word_at, words as words_at, kind_named, set_at, list_at, conf_at, record_at, records_at, state_at, entries_at, log_at, conf_state_at, kinds_at, change_list_at, within, state_holds, list_holds, holds as holds_in};

use crate::places::{AUTO_LEAVE, CONF, CONF_STATE, LIST, LOG, NEXT_IDX, STATE};
use idset::IdSet;
use progress::{Progress, ProgressState};
use tracker::{ChangeLog, ConfState, Configuration, IdList, MapChange, MapChangeType, Tracker};
use unplug::layout;

// The LIST: ids and kinds, and how many of each.
#[derive(Clone, Copy)]
pub struct ChangeList {
    pub ids: [u64; ChangeList::CAPACITY],
    pub ids_len: usize,
    pub kinds: [u8; ChangeList::CAPACITY],
    pub kinds_len: usize,
}

impl ChangeList {
    // More than a change list has, so that what is refused with 2 can be asked.
    pub const CAPACITY: usize = 260;

    // As many of the ids as the list says, and no more than it has.
    pub(crate) fn ids(&self) -> &[u64]
        ensures { result.now ≡ take (min self.now.ids_len 260) self.now.ids }
    {
        &self.ids[..self.ids_len.min(Self::CAPACITY)]
    }

    pub(crate) fn kinds(&self) -> &[u8]
        ensures { result.now ≡ take (min self.now.kinds_len 260) self.now.kinds }
    {
        &self.kinds[..self.kinds_len.min(Self::CAPACITY)]
    }
}

// Word `k`; a byte that is not there counts as 0.
pub fn word(s: &[u8], k: usize) -> u64
    ensures { result ≡ word_at s.now k }
{
    if s.len() / 8 < k {
        return 0;
    }
    number_at(s, 8 * k)
}

// Whether every word can be held by its field.
#[tactic(auto, unfolding(crate::specs::Layout::holds))]
pub fn holds(s: &[u8]) -> bool
    ensures { result ≡ holds_in s.now }
{
    state_holds(s, STATE)
        && at_most(s, AUTO_LEAVE, 1, 1, 1)
        && list_holds(s, LIST)
        && at_most(s, CONF + layout::AUTO_LEAVE, 1, 1, 1)
        && at_most(s, LOG + 1, ChangeLog::CAPACITY, 2, 1)
        && at_most(s, CONF_STATE + layout::AUTO_LEAVE, 1, 1, 1)
}

// The STATE of a request.
pub fn state(s: &[u8]) -> Tracker
    ensures { result ≡ state_at s.now 1 }
{
    Tracker {
        conf: conf_at(s, STATE),
        ids: set_at(s, STATE + layout::TRACKED),
        records: records_at(s, STATE + layout::RECORDS),
        max_inflight: word(s, STATE + layout::RECORDS_END),
    }
}

// The LIST of a request.
pub fn change_list(s: &[u8]) -> ChangeList
    ensures { result ≡ change_list_at s.now 970 }
{
    let kinds = LIST + ChangeList::CAPACITY + 1;
    ChangeList {
        ids: words_at(s, LIST),
        ids_len: word(s, LIST + ChangeList::CAPACITY) as usize,
        kinds: kinds_at(s, kinds),
        kinds_len: word(s, kinds + ChangeList::CAPACITY) as usize,
    }
}

// The CONF of a request.
pub fn conf(s: &[u8]) -> Configuration
    ensures { result ≡ conf_at s.now 1492 }
{
    conf_at(s, CONF)
}

// The LOG of a request.
pub fn log(s: &[u8]) -> ChangeLog
    ensures { result ≡ log_at s.now 1753 }
{
    ChangeLog {
        entries: entries_at(s, LOG),
        count: word(s, LOG + 2 * ChangeLog::CAPACITY) as usize,
    }
}

// The CONFSTATE of a request: its four lists and the flag lie as the sets of a CONF do.
pub fn conf_state(s: &[u8]) -> ConfState
    ensures { result ≡ conf_state_at s.now 2266 }
{
    ConfState {
        voters: list_at(s, CONF_STATE + layout::INCOMING),
        learners: list_at(s, CONF_STATE + layout::OUTGOING),
        voters_outgoing: list_at(s, CONF_STATE + layout::LEARNERS),
        learners_next: list_at(s, CONF_STATE + layout::LEARNERS_NEXT),
        auto_leave: word(s, CONF_STATE + layout::AUTO_LEAVE) == 1,
    }
}

// The 8 bytes from `at` on as a number, the least significant first; a byte that is not there counts as 0. Where all are there they are read at once.
fn number_at(s: &[u8], at: usize) -> u64
    requires { at ≤ length s.now }
    ensures { result ≡ number 8 s.now at }
{
    if 8 <= s.len() - at {
        if let Some(bytes) = s[at..at + 8].as_array::<8>() {
            return u64::from_le_bytes(*bytes);
        }
    }
    let mut bytes = [0u8; 8];
    for i in 0..8 {
        bytes[i] = s.get(at + i).copied().unwrap_or(0);
    }
    u64::from_le_bytes(bytes)
}

// Whether `n` words from `k` on, `step` apart, are at most `most`. Put into its caller, where `n` and `step` are known.
#[inline(always)]
fn at_most(s: &[u8], k: usize, n: usize, step: usize, most: u64) -> bool
    requires { k + n * step ≤ 4096 }
    ensures { result ≡ within n most step s.now k }
{
    for i in 0..n {
        if most < word(s, k + i * step) {
            return false;
        }
    }
    true
}

// The flag of the CONF, and of each RECORD its state and its two flags.
fn state_holds(s: &[u8], k: usize) -> bool
    requires { k ≤ 2048 }
    ensures { result ≡ state_holds s.now k }
{
    let records = k + layout::RECORDS;
    at_most(s, k + layout::AUTO_LEAVE, 1, 1, 1)
        && at_most(
            s,
            records + layout::RECORD_STATE,
            Tracker::CAPACITY,
            layout::RECORD,
            2,
        )
        && at_most(
            s,
            records + layout::PAUSED,
            Tracker::CAPACITY,
            layout::RECORD,
            1,
        )
        && at_most(
            s,
            records + layout::RECENT_ACTIVE,
            Tracker::CAPACITY,
            layout::RECORD,
            1,
        )
}

// Both counts, and each kind.
fn list_holds(s: &[u8], k: usize) -> bool
    requires { k ≤ 2048 }
    ensures { result ≡ list_holds s.now k }
{
    let most = ChangeList::CAPACITY as u64;
    let kinds = k + ChangeList::CAPACITY + 1;
    at_most(s, k + ChangeList::CAPACITY, 1, 1, most)
        && at_most(s, kinds, ChangeList::CAPACITY, 1, u64::from(u8::MAX))
        && at_most(s, kinds + ChangeList::CAPACITY, 1, 1, most)
}

// A CONF.
fn conf_at(s: &[u8], k: usize) -> Configuration
    requires { k ≤ 4096 }
    ensures { result ≡ conf_at s.now k }
{
    let learners = set_at(s, k + layout::LEARNERS);
    Configuration {
        incoming: set_at(s, k + layout::INCOMING),
        outgoing: set_at(s, k + layout::OUTGOING),
        learners,
        learners_next: set_at(s, k + layout::LEARNERS_NEXT),
        auto_leave: word(s, k + layout::AUTO_LEAVE) == 1,
    }
}

// A SET.
fn set_at(s: &[u8], k: usize) -> IdSet
    requires { k ≤ 8192 }
    ensures { result ≡ set_at s.now k }
{
    IdSet {
        ids: words_at(s, k),
        len: word(s, k + IdSet::CAPACITY) as usize,
    }
}

// A SET as a list.
fn list_at(s: &[u8], k: usize) -> IdList
    requires { k ≤ 8192 }
    ensures { result ≡ list_at s.now k }
{
    let IdSet { ids, len } = set_at(s, k);
    IdList { ids, len }
}

// `N` words.
fn words_at<const N: usize>(s: &[u8], k: usize) -> [u64; N]
    requires { (k ≤ 8192) × (N ≤ 8192) }
    ensures { result ≡ words_at N s.now k }
{
    let mut words = [0; N];
    for i in 0..N {
        words[i] = word(s, k + i);
    }
    words
}

// The 260 kinds of a LIST; one that is over 255 was refused before, and is cut.
fn kinds_at(s: &[u8], k: usize) -> [u8; ChangeList::CAPACITY]
    requires { k ≤ 8192 }
    ensures { result ≡ kinds_at 260 s.now k }
{
    let mut kinds = [0; ChangeList::CAPACITY];
    for i in 0..ChangeList::CAPACITY {
        kinds[i] = (word(s, k + i) % 256) as u8;
    }
    kinds
}

// The 64 RECORDs.
fn records_at(s: &[u8], k: usize) -> [Progress; Tracker::CAPACITY]
    requires { k ≤ 4096 }
    ensures { result ≡ records_at 64 s.now k }
{
    let mut records = [Progress::unused(); Tracker::CAPACITY];
    for i in 0..Tracker::CAPACITY {
        records[i] = record_at(s, k + layout::RECORD * i);
    }
    records
}

// A RECORD.
fn record_at(s: &[u8], k: usize) -> Progress
    requires { k ≤ 8192 }
    ensures { result ≡ record_at s.now k }
{
    Progress {
        matched: word(s, k),
        next_idx: word(s, k + 1),
        state: state_named(word(s, k + layout::RECORD_STATE)),
        paused: word(s, k + layout::PAUSED) == 1,
        pending_snapshot: word(s, k + 4),
        pending_request_snapshot: word(s, k + 5),
        recent_active: word(s, k + layout::RECENT_ACTIVE) == 1,
        max_inflight: word(s, k + 7),
        commit_group_id: word(s, k + 8),
        committed_index: word(s, k + 9),
    }
}

// 0 Probe, 1 Replicate, 2 Snapshot; another was refused before.
fn state_named(w: u64) -> ProgressState
    ensures { result ≡ state_named w }
{
    match w {
        0 => ProgressState::Probe,
        1 => ProgressState::Replicate,
        _ => ProgressState::Snapshot,
    }
}

// The 256 entries of a LOG.
fn entries_at(s: &[u8], k: usize) -> [MapChange; ChangeLog::CAPACITY]
    requires { k ≤ 4096 }
    ensures { result ≡ entries_at 256 s.now k }
{
    let blank = MapChange {
        id: 0,
        kind: MapChangeType::Add,
    };
    let mut entries = [blank; ChangeLog::CAPACITY];
    for i in 0..ChangeLog::CAPACITY {
        entries[i] = entry_at(s, k + 2 * i);
    }
    entries
}

// An entry: its id, and its kind.
fn entry_at(s: &[u8], k: usize) -> MapChange
    requires { k ≤ 8192 }
    ensures { result ≡ record { id = word_at s.now k; kind = kind_named (word_at s.now (k + 1)) } }
{
    MapChange {
        id: word(s, k),
        kind: kind_named(word(s, k + 1)),
    }
}

// 0 Add, 1 Remove; another was refused before.
fn kind_named(w: u64) -> MapChangeType
    ensures { result ≡ kind_named w }
{
    match w {
        0 => MapChangeType::Add,
        _ => MapChangeType::Remove,
    }
}
