// Why a line has no answer.
ghost use Rattle.std.specs.Prelude.{◌≡◌, Some};
ghost use Rattle.answers.specs.declared.fault.Fault.TheVariants.{Unreadable, Refused};
ghost use Rattle.answers.specs.Faults.{fault_text};

use lines::unreadable::Unreadable;
use rules::refusal::Refusal;
use std::error::Error;
use std::fmt;

#[derive(Clone, Copy, PartialEq, Eq, Debug)]
pub enum Fault {
    Unreadable,
    Refused(Refusal),
}

impl From<Unreadable> for Fault {
    ghost from_gives = { λ _ fault. fault ≡ Unreadable };

    fn from(_unreadable: Unreadable) -> Fault {
        Fault::Unreadable
    }
}

impl From<Refusal> for Fault {
    ghost from_gives = { λ refusal fault. fault ≡ Refused refusal };

    fn from(refusal: Refusal) -> Fault {
        Fault::Refused(refusal)
    }
}

impl fmt::Display for Fault {
    ghost output = { λ fault. Some (fault_text fault) };

    fn fmt<W: fmt::Write>(&self, f: &mut fmt::Formatter<W>) -> fmt::Result {
        match self {
            Fault::Unreadable => write!(f, "{}", Unreadable),
            Fault::Refused(why) => write!(f, "{why}"),
        }
    }
}

impl Error for Fault {}
