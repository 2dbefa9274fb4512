// What the examples begin from: states, the kinds of a change, and the lists that are restored.
use restore::{Changes, restore};
use std::fmt;
use tracker::{ConfState, IdList, Tracker};

// A change of a list.
#[derive(Clone, Copy)]
pub(crate) enum Change {
    Add(u64),
    Remove(u64),
    Learner(u64),
}

impl Change {
    pub(crate) fn id(self) -> u64 {
        match self {
            Change::Add(id) => id,
            Change::Remove(id) => id,
            Change::Learner(id) => id,
        }
    }

    // The kind's number: AddNode, RemoveNode, AddLearnerNode.
    pub(crate) fn kind(self) -> u8 {
        match self {
            Change::Add(_) => 0,
            Change::Remove(_) => 1,
            Change::Learner(_) => 2,
        }
    }
}

// `add 2`, `remove 1`, `learner 3`.
impl fmt::Display for Change {
    fn fmt<W: fmt::Write>(&self, f: &mut fmt::Formatter<W>) -> fmt::Result {
        match *self {
            Change::Add(id) => write!(f, "add {id}"),
            Change::Remove(id) => write!(f, "remove {id}"),
            Change::Learner(id) => write!(f, "learner {id}"),
        }
    }
}

// The fresh state.
pub(crate) fn fresh() -> Tracker {
    Tracker::new(256)
}

// A group with these voters and learners, each with a record whose `next_idx` is 10.
pub(crate) fn group(voters: IdList, learners: IdList) -> Tracker {
    let mut t = fresh();
    let _ = restore(&mut t, &conf_state(voters, learners, none(), none()), 10);
    t
}

// A group of voters alone.
pub(crate) fn voters(ids: &[u64]) -> Tracker {
    group(list(ids), none())
}

// Incoming (1 2), outgoing (1 2), staged (2), tracked 1 and 2: built by hand, since no calls from fresh lead there.
pub(crate) fn stuck() -> Tracker {
    let mut t = voters(&[1, 2]);
    t.conf.outgoing = t.conf.incoming;
    let _ = t.conf.learners_next.insert(2);
    t
}

// The flag is false.
pub(crate) fn conf_state(
    voters: IdList,
    learners: IdList,
    voters_outgoing: IdList,
    learners_next: IdList,
) -> ConfState {
    ConfState {
        voters,
        learners,
        voters_outgoing,
        learners_next,
        auto_leave: false,
    }
}

// The outgoing voters of a `ConfState` as its voters: what is restored of it before the last step.
pub(crate) fn outgoing_first(cs: ConfState) -> ConfState {
    conf_state(cs.voters_outgoing, none(), none(), none())
}

// The list of a restore's last step, as it is printed: `remove 1, add 2`.
#[derive(Clone, Copy)]
pub(crate) struct LastStep(pub(crate) Changes);

impl fmt::Display for LastStep {
    fn fmt<W: fmt::Write>(&self, f: &mut fmt::Formatter<W>) -> fmt::Result {
        let n = self.0.len.min(changes::MAX_CHANGES);
        for (i, id) in self.0.ids[..n].iter().enumerate() {
            if i != 0 {
                write!(f, ", ")?;
            }
            let change = match self.0.kinds.get(i) {
                Some(0) => Change::Add(*id),
                Some(1) => Change::Remove(*id),
                _ => Change::Learner(*id),
            };
            write!(f, "{change}")?;
        }
        Ok(())
    }
}

// The empty list.
pub(crate) fn none() -> IdList {
    IdList {
        ids: [0u64; IdList::CAPACITY],
        len: 0,
    }
}

// The list of these ids, at most 64 of them.
pub(crate) fn list(ids: &[u64]) -> IdList {
    let mut places = [0u64; IdList::CAPACITY];
    for (place, id) in places.iter_mut().zip(ids) {
        *place = *id;
    }
    IdList {
        ids: places,
        len: ids.len().min(IdList::CAPACITY),
    }
}

// The list 1 to 63.
pub(crate) fn one_to_63() -> IdList {
    let mut ids = [0u64; IdList::CAPACITY];
    for (id, n) in ids.iter_mut().zip(1..64) {
        *id = n;
    }
    IdList { ids, len: 63 }
}
