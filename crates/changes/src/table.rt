// The table of standings: document 01, "What one change does to one id".
ghost use Rattle.std.specs.Prelude.{◌≡◌};
ghost use Rattle.changes.specs.Table.{kind_in, move_of, row_of, incoming_at, learner_at, staged_at};

// Where an id stands, in the order of the rows of `MOVES`: untracked, tracked only, incoming, learner, outgoing, both voters, outgoing and staged.
#[derive(Clone, Copy)]
pub enum Standing {
    None,
    Idle,
    I,
    L,
    O,
    IO,
    OS,
}

// What a change asks for, in the order of the columns of `MOVES`.
#[derive(Clone, Copy)]
pub enum Kind {
    AddNode,
    AddLearnerNode,
    RemoveNode,
}

// What is logged.
#[derive(Clone, Copy)]
pub enum Effect {
    Stays,
    Adds,
    Removes,
}

#[derive(Clone, Copy)]
pub struct Move {
    pub next: Standing,
    pub effect: Effect,
}

// The moves of the table: where an id comes to, and what is logged.
const ADDED_I: Move = Move {
    next: Standing::I,
    effect: Effect::Adds,
};

const ADDED_L: Move = Move {
    next: Standing::L,
    effect: Effect::Adds,
};

const NONE: Move = Move {
    next: Standing::None,
    effect: Effect::Stays,
};

const REMOVED: Move = Move {
    next: Standing::None,
    effect: Effect::Removes,
};

const I: Move = Move {
    next: Standing::I,
    effect: Effect::Stays,
};

const L: Move = Move {
    next: Standing::L,
    effect: Effect::Stays,
};

const O: Move = Move {
    next: Standing::O,
    effect: Effect::Stays,
};

const IO: Move = Move {
    next: Standing::IO,
    effect: Effect::Stays,
};

const OS: Move = Move {
    next: Standing::OS,
    effect: Effect::Stays,
};

// A row a standing; its columns are AddNode, AddLearnerNode and RemoveNode.
const MOVES: [[Move; 3]; 7] = [
    [ADDED_I, ADDED_L, NONE], // None
    [I, L, REMOVED], // Idle
    [I, L, REMOVED], // I
    [I, L, REMOVED], // L
    [IO, OS, O], // O
    [IO, OS, O], // IO
    [IO, OS, O], // OS
];

impl Standing {
    // The standing of an id that is, or is not, tracked and in each set. An id that is incoming, outgoing and staged moves as one of both voters.
    pub fn of(tracked: bool, incoming: bool, outgoing: bool, learner: bool, staged: bool) -> Self
        ensures { result ≡ row_of tracked incoming outgoing learner staged }
    {
        match (tracked, incoming, outgoing, learner, staged) {
            (false, _, _, _, _) => Standing::None,
            (true, true, true, _, _) => Standing::IO,
            (true, false, true, _, true) => Standing::OS,
            (true, false, true, _, false) => Standing::O,
            (true, true, false, _, _) => Standing::I,
            (true, false, false, true, _) => Standing::L,
            (true, false, false, false, _) => Standing::Idle,
        }
    }

    // What a change of this kind does to an id that stands there.
    #[tactic(auto, unfolding(crate::specs::Table::move_of))]
    pub fn next_move(self, kind: Kind) -> Move
        ensures { result ≡ move_of self kind }
    {
        MOVES[self as usize][kind as usize]
    }

    // In which sets an id stands.
    pub fn is_incoming(self) -> bool
        ensures { result ≡ incoming_at self }
    {
        matches!(self, Standing::I | Standing::IO)
    }

    pub fn is_learner(self) -> bool
        ensures { result ≡ learner_at self }
    {
        matches!(self, Standing::L)
    }

    pub fn is_staged(self) -> bool
        ensures { result ≡ staged_at self }
    {
        matches!(self, Standing::OS)
    }
}

// 0 AddNode, 1 RemoveNode, 2 AddLearnerNode.
impl From<u8> for Kind {
    ghost from_gives = { λ a b. b ≡ kind_in a };

    fn from(kind: u8) -> Self {
        match kind {
            0 => Kind::AddNode,
            1 => Kind::RemoveNode,
            _ => Kind::AddLearnerNode,
        }
    }
}
