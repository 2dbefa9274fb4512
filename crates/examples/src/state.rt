// A state, in the words of document 01's examples.
use idset::IdSet;
use std::fmt;
use tracker::{Configuration, Tracker};

// The ids of a set, in parentheses.
#[derive(Clone, Copy)]
struct Ids(IdSet);

impl fmt::Display for Ids {
    fn fmt<W: fmt::Write>(&self, f: &mut fmt::Formatter<W>) -> fmt::Result {
        write!(f, "(")?;
        for (i, id) in self.0.as_slice().iter().enumerate() {
            if i != 0 {
                write!(f, " ")?;
            }
            write!(f, "{id}")?;
        }
        write!(f, ")")
    }
}

// A label, and the set after it, where an id is in it.
#[derive(Clone, Copy)]
struct Labelled(&'static str, IdSet);

impl fmt::Display for Labelled {
    fn fmt<W: fmt::Write>(&self, f: &mut fmt::Formatter<W>) -> fmt::Result {
        let Labelled(label, set) = *self;
        if set.is_empty() {
            return Ok(());
        }
        let ids = Ids(set);
        write!(f, "{label}{ids}")
    }
}

// Voters, then what there is of outgoing, learners, staged ids and the flag.
#[derive(Clone, Copy)]
pub(crate) struct Conf(pub Configuration);

impl fmt::Display for Conf {
    fn fmt<W: fmt::Write>(&self, f: &mut fmt::Formatter<W>) -> fmt::Result {
        let conf = self.0;
        let voters = Ids(conf.incoming);
        let outgoing = Labelled("&&", conf.outgoing);
        let learners = Labelled(", learners ", conf.learners);
        let staged = Labelled(", staged ", conf.learners_next);
        let flag = if conf.auto_leave { ", auto_leave" } else { "" };
        write!(f, "voters {voters}{outgoing}{learners}{staged}{flag}")
    }
}

// A state with its tracked ids.
#[derive(Clone, Copy)]
pub(crate) struct State(pub Tracker);

impl fmt::Display for State {
    fn fmt<W: fmt::Write>(&self, f: &mut fmt::Formatter<W>) -> fmt::Result {
        let conf = Conf(self.0.conf);
        let tracked = Ids(self.0.ids);
        write!(f, "{conf}, tracked {tracked}")
    }
}
