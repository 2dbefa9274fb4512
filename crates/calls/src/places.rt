// Where the blocks of a request begin, counted in words, and how long a request and a reply are: docs/EMBEDDING.md.
use crate::read::ChangeList;
use tracker::ChangeLog;
use unplug::layout;

pub const CALL: usize = 0;

pub const STATE: usize = CALL + 1;

pub const AUTO_LEAVE: usize = STATE + layout::WORDS;

pub const NEXT_IDX: usize = AUTO_LEAVE + 1;

pub const LIST: usize = NEXT_IDX + 1;

pub const CONF: usize = LIST + 2 * (ChangeList::CAPACITY + 1);

pub const LOG: usize = CONF + CONF_WORDS;

pub const CONF_STATE: usize = LOG + LOG_WORDS;

// A CONF and a CONFSTATE have four SETs and a flag, a LOG two words for each entry and its count.
const CONF_WORDS: usize = 4 * layout::SET + 1;

const LOG_WORDS: usize = 2 * ChangeLog::CAPACITY + 1;

// In bytes. A reply has number, id and a flag, a STATE, a LOG, a CONFSTATE, and how many entries did nothing.
pub const REQUEST: usize = 8 * (CONF_STATE + CONF_WORDS);

pub const REPLY: usize = 8 * (3 + layout::WORDS + LOG_WORDS + CONF_WORDS + 1);
