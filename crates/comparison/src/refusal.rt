// Why two files have no lines: document 02, k) and l).
ghost use Rattle.std.specs.Prelude.{◌≡◌};
ghost use Rattle.confstate.specs.Refusals.{number_of as unread_number};
ghost use Rattle.comparison.specs.Steps.{number_of};

use confstate::read;

// Each with the number that is printed and answered.
#[derive(Clone, Copy)]
pub enum Refusal {
    CutShort = 28,
    Malformed = 29,
    TooMany = 30,
    Unfit = 32, // a file that could not be read or is too long
    NoRoom = 100, // lines longer than the output
}

impl Refusal {
    pub fn number(self) -> u64
        ensures { result ≡ number_of self }
    {
        self as u64
    }
}

// The reader's refusal, with the same number.
impl From<read::Refusal> for Refusal {
    ghost from_gives = { λ unread refusal. number_of refusal ≡ unread_number unread };

    fn from(unread: read::Refusal) -> Refusal {
        match unread {
            read::Refusal::CutShort => Refusal::CutShort,
            read::Refusal::Malformed => Refusal::Malformed,
            read::Refusal::LongList => Refusal::TooMany,
            read::Refusal::FewWords => Refusal::NoRoom,
        }
    }
}
