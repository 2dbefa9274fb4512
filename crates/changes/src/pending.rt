// `IncrChangeMap` of src/confchange/changer.rs: the base ids with the pending log over them. The view refers to the base ids and copies none.
ghost use Rattle.std.specs.Prelude.{◌≡◌, take, fold};
ghost use Rattle.tracker.specs.Bridge.{entry_of};
ghost use Rattle.changes.specs.Pending.{entry_says, tracked_in};

use tracker::{ChangeLog, MapChange, MapChangeType};

// A map that stores updates instead of apply them directly: the tracked ids that stand below, and how many entries of the log lie over them.
#[derive(Clone, Copy)]
pub struct Pending<'a> {
    pub base: &'a [u64],
    pub count: usize,
}

pub fn view<'a>(base: &'a [u64], count: usize) -> Pending<'a>
    ensures { (result.base ≡ base.entry) × (result.count ≡ count) }
{
    Pending { base, count }
}

// Whether `id` is tracked: the last of the log's entries for it decides, and the base where there is none.
pub fn contains<'a>(p: Pending<'a>, log: &ChangeLog, id: u64) -> bool
    ensures { result ≡ tracked_in p.entry.base.now p.entry.count log.now id }
{
    tracked_in(p.base, p.count, log, id)
}

// The same, asked of the slice and the count.
pub fn is_tracked(base: &[u64], count: usize, log: &ChangeLog, id: u64) -> bool
    ensures { result ≡ tracked_in base.now count log.now id }
{
    contains(view(base, count), log, id)
}

// What the view's question comes to.
pub fn tracked_in(base: &[u64], count: usize, log: &ChangeLog, id: u64) -> bool
    ensures { result ≡ tracked_in base.now count log.now id }
{
    says(log, count, id, base.contains(&id))
}

// What the first `count` entries of the log say of `id`: the last one for it decides; `known` where there is none.
fn says(log: &ChangeLog, count: usize, id: u64, known: bool) -> bool
    ensures { result ≡ fold (λ answer e. entry_says id (entry_of e) answer) known (take count log.now.entries) }
{
    log.entries
        .iter()
        .take(count)
        .fold(known, |answer, entry| says_one(*entry, id, answer))
}

// What one entry says of `id`; `known` where it is for another.
fn says_one(e: MapChange, id: u64, known: bool) -> bool
    ensures { result ≡ entry_says id (entry_of e) known }
{
    if e.id == id {
        matches!(e.kind, MapChangeType::Add)
    } else {
        known
    }
}
