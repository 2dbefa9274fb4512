// The progress of one box, as its leader has it: src/tracker/progress.rs and src/tracker/state.rs.
#![tactic(auto)]

ghost use Rattle.std.specs.Prelude.{◌≡◌};
ghost use Rattle.progress.specs.Record.{fresh_record, unused_record, is_probe, is_unused};

// The state of the progress.
#[derive(Clone, Copy, Debug, Default, PartialEq, Eq)]
pub enum ProgressState {
    // Whether it's probing.
    #[default]
    Probe,
    // Whether it's replicating.
    Replicate,
    // Whether it's a snapshot.
    Snapshot,
}

impl ProgressState {
    // Whether it is `ProgressState::default()`.
    pub fn is_default(self) -> bool
        ensures { result ≡ is_probe self }
    {
        self == ProgressState::default()
    }
}

// The progress of catching up from a restart. `max_inflight` stands for `ins`.
#[derive(Clone, Copy, Debug, Default, PartialEq, Eq)]
pub struct Progress {
    pub matched: u64,
    pub next_idx: u64,
    pub state: ProgressState,
    pub paused: bool,
    pub pending_snapshot: u64,
    pub pending_request_snapshot: u64,
    pub recent_active: bool,
    pub max_inflight: u64,
    pub commit_group_id: u64,
    pub committed_index: u64,
}

impl Progress {
    // A fresh record: `Progress::new`, marked recently active as `apply_conf` does.
    pub fn fresh(next_idx: u64, max_inflight: u64) -> Self
        ensures { result ≡ fresh_record next_idx max_inflight }
    {
        Progress {
            next_idx,
            recent_active: true,
            max_inflight,
            ..Progress::default()
        }
    }

    // The record of an unused place: the default state, zeros and false.
    pub fn unused() -> Self
        ensures { result ≡ unused_record }
    {
        Progress::default()
    }

    // Whether it is the record of an unused place.
    #[tactic(auto, unfolding(crate::specs::Record::is_unused))]
    pub fn is_unused(self) -> bool
        ensures { result ≡ is_unused self }
    {
        self == Progress::unused()
    }
}
