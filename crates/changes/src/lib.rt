// A list of changes: `apply` of src/confchange/changer.rs. What `make_voter`, `make_learner` and `remove` do there are the columns of the
// table of standings here (table.rt); `init_progress` is its first row.
#![tactic(auto)]

ghost use Rattle.std.specs.Prelude.{◌≡◌};
ghost use Rattle.changes.specs.Change.{stands_in, put_in, changed_in, place_in, any_changed_in, one_more, push_in, moved_in, change_in, changes_in, started, left_of, answer_of};

use idset::IdSet;
use tracker::refusal::Refusal;
use tracker::{ChangeLog, Configuration, MapChange, MapChangeType, Tracker};

pub mod pending; // IncrChangeMap
pub mod table; // the table of standings

use table::{Effect, Kind, Move, Standing};

// The most entries that a change list has.
pub const MAX_CHANGES: usize = 256;

// The configuration and the log as far as a list is carried out, how many ids are then tracked, and how many entries did nothing.
#[derive(Clone, Copy)]
pub struct Work {
    pub conf: Configuration,
    pub log: ChangeLog,
    pub tracked: usize,
    pub idle: usize,
}

// Applies a change list to the configuration; it stops at the first id for which there is no room. By convention, changes to voters are
// always made to incoming. Outgoing is either empty or preserves the outgoing configuration while in a joint state.
pub fn apply<'a>(
    work: &mut Work,
    base: &'a [u64],
    ids: &'a [u64],
    kinds: &'a [u8],
) -> Result<(), Refusal>
    ensures after { work.new ≡ left_of (changes_in base.now ids.now kinds.now (started work.old)) }
    ensures answer { result ≡ answer_of (changes_in base.now ids.now kinds.now (started work.old)) }
{
    for (id, kind) in ids.iter().zip(kinds) {
        change(work, base, *id, Kind::from(*kind))?;
    }
    Ok(())
}

// One change, by the table. One with id 0 is skipped: it did nothing.
#[tactic(auto, unfolding(crate::specs::Change::change_in))]
pub fn change(work: &mut Work, base: &[u64], id: u64, kind: Kind) -> Result<(), Refusal>
    ensures after { work.new ≡ left_of (change_in base.now id kind (started work.old)) }
    ensures answer { result ≡ answer_of (change_in base.now id kind (started work.old)) }
{
    if id == 0 {
        work.idle = one_more(work.idle);
        return Ok(());
    }
    let tracked = pending::is_tracked(base, work.log.count, &work.log, id);
    let from = standing(&work.conf, tracked, id);
    moved(work, id, from.next_move(kind))
}

// Where `id` stands, `tracked` telling whether it is tracked.
fn standing(conf: &Configuration, tracked: bool, id: u64) -> Standing
    ensures { result ≡ stands_in conf.now tracked id }
{
    Standing::of(
        tracked,
        conf.incoming.contains(id),
        conf.outgoing.contains(id),
        conf.learners.contains(id),
        conf.learners_next.contains(id),
    )
}

// `id` comes to its new standing, and is logged as the table says; no room where 64 are tracked. A change that alters no set and logs nothing is
// counted.
fn moved(work: &mut Work, id: u64, to: Move) -> Result<(), Refusal>
    ensures after { work.new ≡ left_of (moved_in id to (started work.old)) }
    ensures answer { result ≡ answer_of (moved_in id to (started work.old)) }
{
    if matches!(to.effect, Effect::Adds) && Tracker::CAPACITY <= work.tracked {
        return Err(Refusal::NoRoom(id));
    }
    let changed = place(&mut work.conf, id, to.next);
    match to.effect {
        Effect::Stays => {
            if !changed {
                work.idle = one_more(work.idle);
            }
        }
        Effect::Adds => {
            push(&mut work.log, id, MapChangeType::Add);
            work.tracked += 1;
        }
        Effect::Removes => {
            push(&mut work.log, id, MapChangeType::Remove);
            work.tracked = work.tracked.saturating_sub(1);
        }
    }
    Ok(())
}

// One more, as far as a list can be long.
fn one_more(n: usize) -> usize
    ensures { result ≡ one_more n }
{
    if n < MAX_CHANGES { n + 1 } else { n }
}

// `id` comes to the standing `to` in each set; no change touches outgoing. Whether one of the sets changed.
fn place(conf: &mut Configuration, id: u64, to: Standing) -> bool
    ensures after { conf.new ≡ place_in id to conf.old }
    ensures changed { result ≡ any_changed_in id to conf.old }
{
    let incoming = put(&mut conf.incoming, id, to.is_incoming());
    let learners = put(&mut conf.learners, id, to.is_learner());
    let staged = put(&mut conf.learners_next, id, to.is_staged());
    incoming || learners || staged
}

// Puts `id` into the set, or takes it from it. Whether the set changed.
fn put(set: &mut IdSet, id: u64, with: bool) -> bool
    ensures after { set.new ≡ put_in with id set.old }
    ensures changed { result ≡ changed_in with id set.old }
{
    if with {
        set.insert(id).unwrap_or(false)
    } else {
        set.remove(id)
    }
}

// The log with one entry more; a full log stays as it is.
#[tactic(auto, unfolding(crate::specs::Change::push_in))]
pub fn push(log: &mut ChangeLog, id: u64, kind: MapChangeType)
    ensures { log.new ≡ push_in id kind log.old }
{
    if log.count < ChangeLog::CAPACITY {
        log.entries[log.count] = MapChange { id, kind };
        log.count += 1;
    }
}
