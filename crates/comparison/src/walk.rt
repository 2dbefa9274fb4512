// Two messages whose lists ascend, walked side by side: the next id is the least of what stands where the walk is in the eight lists.
ghost use Rattle.std.specs.Prelude.{◌≡◌, ◌+◌, ◌≤◌, length, drop};
ghost use Rattle.idset.specs.Places.{first_is};
ghost use Rattle.confstate.specs.Words.{list_in};
ghost use Rattle.comparison.specs.Steps.{Lists, Within, begin, lesser_of, least_of, next_of, left_of, firsts_of, past_of};

use crate::line::Standing;
use confstate::{LEARNERS, NEXT, OUTGOING, VOTERS};

// Where the walk is in each list of a message; first at the first place of each.
#[derive(Clone, Copy, Default)]
pub struct Places {
    pub voters: usize,
    pub outgoing: usize,
    pub learners: usize,
    pub next: usize,
}

// A message, and where the walk is in it.
#[derive(Clone, Copy)]
pub struct Walk<'a> {
    pub words: &'a [u64],
    pub places: Places,
}

impl<'a> Walk<'a> {
    pub fn new(words: &'a [u64]) -> Walk<'a>
        ensures same { result.words.now ≡ words.now }
        ensures first { result.places ≡ begin }
    {
        Walk {
            words,
            places: Places::default(),
        }
    }

    // What was found, or the least id that is left where that is less.
    #[tactic(auto, using(crate::proofs::ListWords::few_in_each), unfolding(crate::specs::Steps::left_of, confstate::specs::Words::message_in))]
    fn least(&self, found: Option<u64>) -> Option<u64>
        requires { Lists self.now.words.now }
        ensures { result ≡ least_of (left_of self.now.words.now self.now.places) found }
    {
        let a = lesser(self.words, VOTERS, self.places.voters, found);
        let b = lesser(self.words, OUTGOING, self.places.outgoing, a);
        let c = lesser(self.words, LEARNERS, self.places.learners, b);
        lesser(self.words, NEXT, self.places.next, c)
    }

    // The sets that `id` is in, where it is the least that is left.
    #[tactic(auto, using(crate::proofs::ListWords::few_in_each), unfolding(crate::specs::Steps::left_of, crate::specs::Steps::firsts_of, confstate::specs::Words::message_in))]
    pub fn sets_at(&self, id: u64) -> Standing
        requires { Lists self.now.words.now }
        ensures { result ≡ firsts_of (left_of self.now.words.now self.now.places) id }
    {
        Standing {
            voters: is_at(self.words, VOTERS, self.places.voters, id),
            outgoing: is_at(self.words, OUTGOING, self.places.outgoing, id),
            learners: is_at(self.words, LEARNERS, self.places.learners, id),
            next: is_at(self.words, NEXT, self.places.next, id),
        }
    }

    // Goes past an id that stands in these sets.
    pub fn pass(&mut self, s: Standing)
        requires { Within self.old.places }
        ensures same { self.new.words.now ≡ self.old.words.now }
        ensures passed { self.new.places ≡ past_of self.old.places s }
    {
        self.places.voters += usize::from(s.voters);
        self.places.outgoing += usize::from(s.outgoing);
        self.places.learners += usize::from(s.learners);
        self.places.next += usize::from(s.next);
    }
}

// The least id that is left of both messages, if there is one.
#[tactic(auto, unfolding(crate::specs::Steps::next_of))]
pub fn next_id(first: &Walk, second: &Walk) -> Option<u64>
    requires { Lists first.now.words.now × Lists second.now.words.now }
    ensures { result ≡ next_of (left_of first.now.words.now first.now.places) (left_of second.now.words.now second.now.places) }
{
    second.least(first.least(None))
}

// What was found, or the id at the place `at` of the list at `k` where that is less.
fn lesser(words: &[u64], k: usize, at: usize, found: Option<u64>) -> Option<u64>
    requires { (k + 65 ≤ length words.now) × (length (list_in words.now k) ≤ 64) }
    ensures { result ≡ lesser_of (drop at (list_in words.now k)) found }
{
    let count = words[k + 64] as usize;
    if count <= at {
        return found;
    }
    let id = words[k + at];
    match found {
        Some(least) => Some(least.min(id)),
        None => Some(id),
    }
}

// Whether `id` stands at the place `at` of the list at `k`.
fn is_at(words: &[u64], k: usize, at: usize, id: u64) -> bool
    requires { (k + 65 ≤ length words.now) × (length (list_in words.now k) ≤ 64) }
    ensures { result ≡ first_is id (drop at (list_in words.now k)) }
{
    let count = words[k + 64] as usize;
    idset::stands_at(&words[k..k + count], at, id)
}
