// The state of a group as its leader tracks it: src/tracker.rs, the membership half. Sets are `IdSet`s, the progress map is the tracked
// ids with a record at the same place, `Vec` logs are a count and an array.
#![tactic(auto)]

ghost use Rattle.std.specs.Prelude.{◌≡◌, []};
ghost use Rattle.rules.specs.State.{no_conf, fresh};
ghost use Rattle.tracker.specs.Bridge.{configuration_of, change_log_of, tracker_of};

use idset::IdSet;
use progress::Progress;

pub mod refusal; // why a call is refused
pub mod form; // well formed
pub mod apply; // apply_conf
mod roster; // the tracked as the log is taken
pub mod conf_state; // to_conf_state

// The configuration tracked in a `Tracker`.
#[derive(Clone, Copy)]
pub struct Configuration {
    pub incoming: IdSet,
    pub outgoing: IdSet,
    pub learners: IdSet,
    pub learners_next: IdSet,
    pub auto_leave: bool,
}

// Change log for progress map.
#[derive(Clone, Copy, Debug, Default, PartialEq, Eq)]
pub enum MapChangeType {
    #[default]
    Add,
    Remove,
}

// The default is what an unused place of a log holds: an Add of 0.
#[derive(Clone, Copy, Debug, Default, PartialEq, Eq)]
pub struct MapChange {
    pub id: u64,
    pub kind: MapChangeType,
}

// Changes made by `Changer`: the first `count` of `entries`. An unused place is an Add of 0.
#[derive(Clone, Copy)]
pub struct ChangeLog {
    pub entries: [MapChange; ChangeLog::CAPACITY],
    pub count: usize,
}

// The configuration, and the tracked ids with a record each; an unused place has the unused record.
#[derive(Clone, Copy)]
pub struct Tracker {
    pub conf: Configuration,
    pub ids: IdSet,
    pub records: [Progress; Tracker::CAPACITY],
    pub max_inflight: u64,
}

// The first `len` of `ids`, in any order, repeats and zeros allowed.
#[derive(Clone, Copy)]
pub struct IdList {
    pub ids: [u64; IdList::CAPACITY],
    pub len: usize,
}

#[derive(Clone, Copy)]
pub struct ConfState {
    pub voters: IdList,
    pub learners: IdList,
    pub voters_outgoing: IdList,
    pub learners_next: IdList,
    pub auto_leave: bool,
}

impl Configuration {
    // Nothing in any set, the flag false.
    pub fn new() -> Self
        ensures { result ≡ configuration_of no_conf }
    {
        let none = IdSet::new();
        Configuration {
            incoming: none,
            outgoing: none,
            learners: none,
            learners_next: none,
            auto_leave: false,
        }
    }
}

impl ChangeLog {
    pub const CAPACITY: usize = 256;

    // The empty log.
    pub fn new() -> Self
        ensures { result ≡ change_log_of [] }
    {
        ChangeLog {
            entries: [MapChange::default(); Self::CAPACITY],
            count: 0,
        }
    }
}

impl IdList {
    pub const CAPACITY: usize = 64;
}

impl Tracker {
    pub const CAPACITY: usize = 64;

    // The last place.
    pub const LAST: usize = Self::CAPACITY - 1;

    // The fresh state.
    pub fn new(max_inflight: u64) -> Self
        ensures { result ≡ tracker_of (fresh max_inflight) }
    {
        Tracker {
            conf: Configuration::new(),
            ids: IdSet::new(),
            records: [Progress::unused(); Self::CAPACITY],
            max_inflight,
        }
    }
}
