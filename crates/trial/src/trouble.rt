// Why a case is not entered, and how that is said.
ghost use Rattle.std.specs.Prelude.{◌≡◌, Some};
ghost use Rattle.trial.specs.Troubles.{trouble_text};
ghost use Rattle.trial.specs.declared.trouble.Trouble.TheVariants.{Refused, NoMemory};

use moments::refusal::Refusal;
use std::alloc::AllocFailed;
use std::error::Error;
use std::fmt;

// Why a case is not entered.
#[derive(Clone, Copy, PartialEq, Eq, Debug)]
pub enum Trouble {
    Refused(Refusal),
    // no `Option` of a refusal: want of memory is a trouble of its own
    NoMemory,
}

impl From<Refusal> for Trouble {
    ghost from_gives = { λ e r. r ≡ Refused e };

    fn from(refusal: Refusal) -> Self {
        Self::Refused(refusal)
    }
}

impl<V: Drop> From<AllocFailed<V>> for Trouble {
    ghost from_gives = { λ _ r. r ≡ NoMemory };

    fn from(_refused: AllocFailed<V>) -> Self {
        Self::NoMemory
    }
}

impl fmt::Display for Trouble {
    ghost output = { λ it. Some (trouble_text it) };

    fn fmt<W: fmt::Write>(&self, f: &mut fmt::Formatter<W>) -> fmt::Result {
        match self {
            Trouble::Refused(refusal) => write!(f, "{refusal}"),
            Trouble::NoMemory => f.write_str("not entered: no memory"),
        }
    }
}

impl Error for Trouble {}
