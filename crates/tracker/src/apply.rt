// `apply_conf` of src/tracker.rs.
ghost use Rattle.std.specs.Prelude.{◌≡◌};
ghost use Rattle.tracker.specs.Apply.{apply_of, outcome_left};

use crate::refusal::Refusal;
use crate::roster::Roster;
use crate::{ChangeLog, Configuration, Tracker};
use progress::Progress;

// Applies configuration and updates progress map to match the configuration. The tracker is updated where it stands; a refusal leaves it.
pub fn apply_conf(
    t: &mut Tracker,
    conf: &Configuration,
    log: &ChangeLog,
    next_idx: u64,
) -> Result<(), Refusal>
    ensures { outcome_left t.new result ≡ apply_of t.old conf.now log.now next_idx }
{
    if t.is_malformed() || conf.is_malformed() || log.is_malformed() {
        return Err(Refusal::Malformed);
    }
    let ids = t.ids;
    let records = t.records;
    let mut roster = Roster { ids, records };
    let fresh = Progress::fresh(next_idx, t.max_inflight);
    roster.enrol(&log.entries[..log.count], fresh)?;
    t.conf = *conf;
    t.ids = roster.ids;
    t.records = roster.records;
    Ok(())
}
