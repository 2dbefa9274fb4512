// Script in, listing out: document 01, "The replay script". The listing is put into a lent slice, as far as it goes there, and counted to its end.
#![tactic(auto)]

ghost use Rattle.std.specs.Prelude.{◌≡◌, ◌<◌, ◌+◌, ◌≤◌, length, get_or, MatchOption};
ghost use Rattle.text.specs.Put.{Put};
ghost use Rattle.text.specs.Writes.{Writes};
ghost use Rattle.changer.specs.Calls.{answered};
ghost use Rattle.listing.specs.Kinds.{byte_of, IsByteOf};
ghost use Rattle.listing.specs.Script as script;
ghost use Rattle.listing.specs.Lines.{stopped_line};
ghost use Rattle.listing.specs.Listing.{ending, listing, replay_answer, replay_leaves};
ghost use Rattle.listing.specs.Unlisted.{answer_as};
ghost use Rattle.listing.specs.Sessions.{session_of, begin_in, answer_in, pend_in, applied_in, after_in, shown_in};

use changer::{Changed, enter_joint, leave_joint, simple};
use restore::apply_answer;
use text::Output;
use tracker::Tracker;
use tracker::refusal::Refusal;

pub mod line; // the text of a line

// The most bytes that a script has.
pub const MAX_SCRIPT: usize = 65536;

// The `max_inflight` of the state that a replay begins with.
pub const MAX_INFLIGHT: u64 = 256;

// What is answered where there is no listing: 2^32, and 19 or 20 of document 01, "Refusal numbers".
pub const SCRIPT_TOO_LONG: u64 = 4294967315;

pub const LISTING_TOO_LONG: u64 = 4294967316;

// Why there is no listing.
#[derive(Clone, Copy)]
enum Unlisted {
    ScriptTooLong, // 19: over 65,536 bytes
    ListingTooLong, // 20: longer than the output
}

// A record's kind: a change more on the pending list, which one being the byte's to say, or a run of that list.
#[derive(Clone, Copy)]
enum Kind {
    Change,
    Run(Run),
}

#[derive(Clone, Copy)]
enum Run {
    Simple,
    Enter { auto_leave: bool },
    Leave,
}

impl Kind {
    // The kind that a record's first byte names, if there is one.
    fn of(byte: u8) -> Option<Kind>
        ensures { MatchOption result (6 < byte) (λ kind. IsByteOf kind byte) }
    {
        match byte {
            0..=2 => Some(Kind::Change),
            3 => Some(Kind::Run(Run::Simple)),
            4 => Some(Kind::Run(Run::Enter { auto_leave: false })),
            5 => Some(Kind::Run(Run::Enter { auto_leave: true })),
            6 => Some(Kind::Run(Run::Leave)),
            _ => None,
        }
    }
}

// A replay: the state, the pending list, and how many lines were printed.
#[derive(Clone, Copy)]
pub struct Session {
    pub tracker: Tracker,
    pub ids: [u64; changes::MAX_CHANGES],
    pub kinds: [u8; changes::MAX_CHANGES],
    pub len: usize,
    pub printed: u64,
}

impl Session {
    // The beginning: the fresh state with `max_inflight` 256, nothing pending, nothing printed.
    pub fn begin() -> Session
        ensures { result ≡ begin_in }
    {
        Session {
            tracker: Tracker::new(MAX_INFLIGHT),
            ids: [0u64; changes::MAX_CHANGES],
            kinds: [0u8; changes::MAX_CHANGES],
            len: 0,
            printed: 0,
        }
    }

    // Whether a record of this kind ends the listing: an unknown kind, a 257th pending change, a leave with changes pending.
    pub fn stops(&self, kind: u8) -> bool
        ensures { result ≡ script.stops (session_of self.now) kind }
    {
        match Kind::of(kind) {
            Some(Kind::Change) => changes::MAX_CHANGES <= self.len,
            Some(Kind::Run(Run::Simple)) => false,
            Some(Kind::Run(Run::Enter { .. })) => false,
            Some(Kind::Run(Run::Leave)) => self.len != 0,
            None => true,
        }
    }

    // One record: a change is added to the pending list; a run kind prints its line, an accepted answer is applied, and the list is emptied.
    pub fn turn(&mut self, to: &mut Output, kind: u8, number: u64)
        ensures put { Writes to.old (shown_in self.old kind) to.new }
        ensures after { self.new ≡ after_in self.old kind number }
    {
        let _at = to.at; // Read, so that it is known to be a number of 64 bits.
        let run = match Kind::of(kind) {
            Some(Kind::Run(run)) => run,
            None => Run::Enter { auto_leave: false }, // the listing ended before
            Some(Kind::Change) => {
                self.pend(kind, number);
                return;
            }
        };
        let answer = self.answer_to(run);
        self.apply(answer, number);
        line::put_answer(to, self.printed, &answer);
    }

    // A change is added to the pending list; there is room, or the listing ended before.
    #[inline(never)]
    #[tactic(auto, unfolding(crate::specs::Sessions::pend_in))]
    fn pend(&mut self, kind: u8, id: u64)
        ensures { self.new ≡ pend_in self.old kind id }
    {
        let n = self.len;
        if n < changes::MAX_CHANGES {
            self.ids[n] = id;
            self.kinds[n] = kind;
            self.len = n + 1;
        }
    }

    // What the pending list is answered.
    #[inline(always)]
    fn answer_to(&self, run: Run) -> Result<Changed, Refusal>
        ensures { answered self.now.tracker.conf result ≡ answer_in self.now (byte_of run) }
    {
        let n = self.len.min(changes::MAX_CHANGES);
        let ids = &self.ids[..n];
        let kinds = &self.kinds[..n];
        match run {
            Run::Simple => simple(&self.tracker, ids, kinds),
            Run::Enter { auto_leave } => enter_joint(&self.tracker, auto_leave, ids, kinds),
            Run::Leave => leave_joint(&self.tracker),
        }
    }

    // An accepted answer is applied; the pending list is emptied either way, and a line more is printed. Why an answer is refused is in its line.
    #[tactic(auto, unfolding(crate::specs::Sessions::applied_in))]
    fn apply(&mut self, answer: Result<Changed, Refusal>, next_idx: u64)
        ensures { self.new ≡ applied_in self.old (answered self.old.tracker.conf answer) next_idx }
    {
        let _ = apply_answer(&mut self.tracker, answer, next_idx);
        self.ids.fill(0);
        self.kinds.fill(0);
        self.len = 0; // nothing is pending
        self.printed = self.printed.saturating_add(1);
    }
}

// The listing of a script goes to the front of `out`, every byte after it kept; its length comes back. 2^32 + 19 for a script over 65,536 bytes,
// 2^32 + 20 for a listing longer than `out`, which is then as it was.
pub fn dimecandle_replay(script: &[u8], out: &mut [u8]) -> u64
    ensures { (result ≡ replay_answer script.now (length out.old)) × (out.new ≡ replay_leaves script.now out.old) }
{
    match list(script, out) {
        Ok(length) => length as u64,
        Err(Unlisted::ScriptTooLong) => SCRIPT_TOO_LONG,
        Err(Unlisted::ListingTooLong) => LISTING_TOO_LONG,
    }
}

// The listing at the front of `out`, and its length; nothing is put where it does not fit.
fn list(script: &[u8], out: &mut [u8]) -> Result<usize, Unlisted>
    ensures { (answer_as result ≡ replay_answer script.now (length out.old)) × (out.new ≡ replay_leaves script.now out.old) }
{
    if MAX_SCRIPT < script.len() {
        return Err(Unlisted::ScriptTooLong);
    }
    let mut none = [0u8; 1];
    let length = put_listing(script, &mut none);
    if out.len() < length {
        return Err(Unlisted::ListingTooLong);
    }
    Ok(put_listing(script, out))
}

// The listing, as far as `out` goes; its whole length comes back.
fn put_listing(script: &[u8], out: &mut [u8]) -> usize
    requires { length script.now ≤ 65536 }
    ensures { Put out.old 0 (listing script.now) out.new result }
{
    let mut to = Output::new(out);
    let mut session = Session::begin();
    let records = script.len() / 9;
    for k in 0..records {
        let at = 9 * k;
        let kind = script[at];
        if session.stops(kind) {
            put_stopped(&mut to, at);
            return to.at;
        }
        session.turn(&mut to, kind, number_at(script, at + 1));
    }
    put_ending(&mut to, 9 * records, script.len(), &session);
    to.at
}

// `stopped at byte K`.
pub fn put_stopped(to: &mut Output, k: usize)
    ensures { Writes to.old (stopped_line k) to.new }
{
    to.put_bytes(b"stopped at byte ");
    to.put_decimal(k as u64);
    to.put_byte(b'\n');
}

// What is printed where no whole record is left: bytes are left from `k` on; changes are pending at `end`; neither.
pub fn put_ending(to: &mut Output, k: usize, end: usize, session: &Session)
    ensures { Writes to.old (ending k end (session_of session.now)) to.new }
{
    let _at = to.at; // Read, so that it is known to be a number of 64 bits.
    if k < end {
        put_stopped(to, k);
    } else if session.len != 0 {
        put_stopped(to, end);
    }
}

// The 8 bytes from `at` on as a number, the least significant first; a byte that is not there counts as 0.
pub fn number_at(s: &[u8], at: usize) -> u64
    ensures { result ≡ script.number 8 s.now at }
{
    let mut n = 0;
    for i in (0..8).rev() {
        n = n * 256 + byte_at(s, at, i);
    }
    n
}

// The byte `i` places after `at`, 0 where there is none.
fn byte_at(s: &[u8], at: usize, i: usize) -> u64
    ensures { result ≡ get_or s.now (at + i) 0 }
{
    let place = at.checked_add(i);
    place
        .and_then(|place| s.get(place))
        .map_or(0, |b| u64::from(*b))
}
