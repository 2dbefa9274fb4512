// What is answered, in the words of document 01's examples.
use crate::state::{Conf, State};
use changer::Changed;
use std::fmt;
use tracker::refusal::Refusal;
use tracker::{ChangeLog, MapChange, MapChangeType, Tracker};

// What a call answers: the configuration and the log, or a refusal.
#[derive(Clone, Copy)]
pub(crate) struct Told(pub Result<Changed, Refusal>);

impl fmt::Display for Told {
    fn fmt<W: fmt::Write>(&self, f: &mut fmt::Formatter<W>) -> fmt::Result {
        match self.0 {
            Ok(changed) => {
                let conf = Conf(changed.conf);
                let log = Log(changed.log);
                write!(f, "{conf}{log}")
            }
            Err(refusal) => {
                let refused = Refused(refusal);
                write!(f, "{refused}")
            }
        }
    }
}

// A refusal's number and its id.
#[derive(Clone, Copy)]
struct Refused(Refusal);

impl fmt::Display for Refused {
    fn fmt<W: fmt::Write>(&self, f: &mut fmt::Formatter<W>) -> fmt::Result {
        let number = self.0.number();
        let id = self.0.id();
        write!(f, "refused {number} id {id}")
    }
}

// The log's entries, `log +4 -3`; the empty one by name.
#[derive(Clone, Copy)]
struct Log(ChangeLog);

impl fmt::Display for Log {
    fn fmt<W: fmt::Write>(&self, f: &mut fmt::Formatter<W>) -> fmt::Result {
        if self.0.count == 0 {
            return write!(f, ", empty log");
        }
        write!(f, ", log")?;
        for e in self.0.entries.iter().take(self.0.count) {
            let MapChange { id, kind } = *e;
            match kind {
                MapChangeType::Add => write!(f, " +{id}")?,
                MapChangeType::Remove => write!(f, " -{id}")?,
            }
        }
        Ok(())
    }
}

// What `restore` and `restore_step_by_step` answer: the state that it leaves, after the refusal if there is one.
#[derive(Clone, Copy)]
pub(crate) struct Restored(pub Result<(), Refusal>, pub Tracker);

impl fmt::Display for Restored {
    fn fmt<W: fmt::Write>(&self, f: &mut fmt::Formatter<W>) -> fmt::Result {
        let Restored(result, t) = *self;
        let left = State(t);
        if let Err(refusal) = result {
            let refused = Refused(refusal);
            write!(f, "{refused}, left with ")?;
        }
        write!(f, "{left}")
    }
}

// What the check answers.
#[derive(Clone, Copy)]
pub(crate) struct Checked(pub Result<(), Refusal>);

impl fmt::Display for Checked {
    fn fmt<W: fmt::Write>(&self, f: &mut fmt::Formatter<W>) -> fmt::Result {
        match self.0 {
            Ok(()) => write!(f, "the check passes"),
            Err(refusal) => {
                let refused = Refused(refusal);
                write!(f, "{refused}")
            }
        }
    }
}
