// Where the blocks of a STATE begin, counted in words: docs/EMBEDDING.md.
use idset::IdSet;
use tracker::Tracker;

// A SET is 64 ids and then their count.
pub const SET: usize = IdSet::CAPACITY + 1;

pub const INCOMING: usize = 0;

pub const OUTGOING: usize = INCOMING + SET;

pub const LEARNERS: usize = OUTGOING + SET;

pub const LEARNERS_NEXT: usize = LEARNERS + SET;

pub const AUTO_LEAVE: usize = LEARNERS_NEXT + SET;

pub const TRACKED: usize = AUTO_LEAVE + 1;

pub const RECORDS: usize = TRACKED + SET;

pub const RECORDS_END: usize = RECORDS + RECORD * Tracker::CAPACITY;

// A STATE ends with max_inflight.
pub const WORDS: usize = RECORDS_END + 1;

pub const RECORD: usize = 10;

// Of a record, the words that not every number fits.
pub const RECORD_STATE: usize = 2;

pub const PAUSED: usize = 3;

pub const RECENT_ACTIVE: usize = 6;
