// ConfState as it travels: document 02, k), on byte slices. The message is lent as the words of a CONFSTATE (docs/EMBEDDING.md): four lists, each 64 ids and
// then the count, and the flag.
#![tactic(auto)]

pub mod read; // bytes to words
pub mod write; // words to bytes

// How many ids a list holds; the word after them is their count.
const IDS: usize = 64;

// How many words a list takes.
const LIST: usize = IDS + 1;

// How many words there are.
pub const WORDS: usize = 261;

// Where each list begins, and the flag's word.
pub const VOTERS: usize = 0;

pub const LEARNERS: usize = 65;

pub const OUTGOING: usize = 130;

pub const NEXT: usize = 195;

pub const FLAG: usize = 260;
