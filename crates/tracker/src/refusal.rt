// Why a call is refused: document 01, "Refusal numbers". A refusal holds the id that its row names.
ghost use Rattle.std.specs.Prelude.{◌≡◌};
ghost use Rattle.tracker.specs.Refusals.{number_at, id_at};

use std::fmt;

#[derive(Clone, Copy, Debug, PartialEq, Eq)]
pub enum Refusal {
    // 1: malformed state, configuration or log
    Malformed,
    // 2: a list too long, or ids and kinds of unequal length
    ListTooLong,
    // 3: a kind above 2
    KindAbove2,
    // 4: `enter_joint` on a joint configuration
    AlreadyJoint,
    // 5: `leave_joint` on a non-joint one
    NotJoint,
    // 6: `simple` on a joint one
    SimpleWhileJoint,
    // 7
    VoterNotTracked(u64),
    // 8
    LearnerNotTracked(u64),
    // 9
    LearnerIsOutgoing(u64),
    // 10
    LearnerIsIncoming(u64),
    // 11
    StagedNotTracked(u64),
    // 12
    StagedNotOutgoing(u64),
    // 13: kept for the Rust's message, never given
    StagedWhileNotJoint,
    // 14
    AutoLeaveWhileNotJoint,
    // 15: `enter_joint` with no incoming voter
    EnterWithoutVoter,
    // 16: an untracked id to be tracked while 64 are
    NoRoom(u64),
    // 17: no incoming voter after the changes
    NoVoterLeft,
    // 18: incoming differs by two ids or more
    TwoVotersChanged,
}

impl Refusal {
    // The paper's number.
    pub fn number(self) -> u64
        ensures { result ≡ number_at self }
    {
        match self {
            Refusal::Malformed => 1,
            Refusal::ListTooLong => 2,
            Refusal::KindAbove2 => 3,
            Refusal::AlreadyJoint => 4,
            Refusal::NotJoint => 5,
            Refusal::SimpleWhileJoint => 6,
            Refusal::VoterNotTracked(_) => 7,
            Refusal::LearnerNotTracked(_) => 8,
            Refusal::LearnerIsOutgoing(_) => 9,
            Refusal::LearnerIsIncoming(_) => 10,
            Refusal::StagedNotTracked(_) => 11,
            Refusal::StagedNotOutgoing(_) => 12,
            Refusal::StagedWhileNotJoint => 13,
            Refusal::AutoLeaveWhileNotJoint => 14,
            Refusal::EnterWithoutVoter => 15,
            Refusal::NoRoom(_) => 16,
            Refusal::NoVoterLeft => 17,
            Refusal::TwoVotersChanged => 18,
        }
    }

    // The id that it names, else 0.
    pub fn id(self) -> u64
        ensures { result ≡ id_at self }
    {
        match self {
            Refusal::VoterNotTracked(id)
            | Refusal::LearnerNotTracked(id)
            | Refusal::LearnerIsOutgoing(id)
            | Refusal::LearnerIsIncoming(id)
            | Refusal::StagedNotTracked(id)
            | Refusal::StagedNotOutgoing(id)
            | Refusal::NoRoom(id) => id,
            _ => 0,
        }
    }
}

impl fmt::Display for Refusal {
    fn fmt<W: fmt::Write>(&self, f: &mut fmt::Formatter<W>) -> fmt::Result {
        match self {
            Refusal::Malformed => write!(f, "the state, the configuration or the log is malformed"),
            Refusal::ListTooLong => write!(
                f,
                "a list is too long, or ids and kinds are not of one length"
            ),
            Refusal::KindAbove2 => write!(f, "a kind is above 2"),
            Refusal::AlreadyJoint => write!(f, "the configuration is already joint"),
            Refusal::NotJoint => write!(f, "can't leave a non-joint config"),
            Refusal::SimpleWhileJoint => write!(
                f,
                "can't apply simple config change in joint config"
            ),
            Refusal::VoterNotTracked(id) => write!(f, "no progress for voter {id}"),
            Refusal::LearnerNotTracked(id) => write!(f, "no progress for learner {id}"),
            Refusal::LearnerIsOutgoing(id) => write!(f, "{id} is in learners and outgoing voters"),
            Refusal::LearnerIsIncoming(id) => write!(f, "{id} is in learners and incoming voters"),
            Refusal::StagedNotTracked(id) => write!(f, "no progress for learner(next) {id}"),
            Refusal::StagedNotOutgoing(id) => write!(
                f,
                "{id} is in learners_next and not in outgoing voters"
            ),
            Refusal::StagedWhileNotJoint => write!(f, "learners_next must be empty when not joint"),
            Refusal::AutoLeaveWhileNotJoint => write!(f, "auto_leave must be false when not joint"),
            Refusal::EnterWithoutVoter => write!(f, "can't make a zero-voter config joint"),
            Refusal::NoRoom(id) => write!(f, "no room to track {id}"),
            Refusal::NoVoterLeft => write!(f, "removed all voters"),
            Refusal::TwoVotersChanged => write!(
                f,
                "more than one voter changed without entering joint config"
            ),
        }
    }
}
