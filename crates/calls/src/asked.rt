// What is asked for, by its number, and why it is not answered: docs/EMBEDDING.md.
ghost use Rattle.std.specs.Prelude.{◌≡◌};
ghost use Rattle.calls.specs.Asked.{Names, same_unfit, refusal_number};

use unplug::Unfit;

// The calls, in the order of their numbers.
#[derive(Clone, Copy)]
pub enum Call {
    Check,
    InOrder,
    Simple,
    EnterJoint,
    LeaveJoint,
    ApplyConf,
    ToConfState,
    Restore,
    RestoreStepByStep,
}

impl TryFrom<u64> for Call {
    type Error = Unanswered;

    ghost try_from_gives = { Names };

    fn try_from(number: u64) -> Result<Self, Unanswered> {
        match number {
            0 => Ok(Call::Check),
            1 => Ok(Call::InOrder),
            2 => Ok(Call::Simple),
            3 => Ok(Call::EnterJoint),
            4 => Ok(Call::LeaveJoint),
            5 => Ok(Call::ApplyConf),
            6 => Ok(Call::ToConfState),
            7 => Ok(Call::Restore),
            8 => Ok(Call::RestoreStepByStep),
            _ => Err(Unanswered::UnknownCall),
        }
    }
}

// Why there is no answer: what was given has the wrong length, what is lent for the answer is too short, the call is none of the nine, or no field can hold a word.
#[derive(Clone, Copy, Debug)]
pub enum Unanswered {
    Length,
    Room,
    UnknownCall,
    Word,
}

impl Unanswered {
    // What the entry returns.
    pub fn number(self) -> u64
        ensures { result ≡ refusal_number self }
    {
        match self {
            Unanswered::Length => 1,
            Unanswered::Room => 2,
            Unanswered::UnknownCall => 3,
            Unanswered::Word => 4,
        }
    }
}

impl From<Unfit> for Unanswered {
    ghost from_gives = { λ unfit why. why ≡ same_unfit unfit };

    fn from(unfit: Unfit) -> Unanswered {
        match unfit {
            Unfit::Length => Unanswered::Length,
            Unfit::Word => Unanswered::Word,
        }
    }
}
