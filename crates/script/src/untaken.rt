// Why a line is not taken into a script.
ghost use Rattle.std.specs.Prelude.{◌≡◌, Some};
ghost use Rattle.script.specs.declared.untaken.Untaken.TheVariants.{Unreadable, OutOfMemory};
ghost use Rattle.script.specs.Untakens.{untaken_text};

use lines::unreadable::Unreadable;
use std::alloc::AllocError;
use std::error::Error;
use std::fmt;

#[derive(Clone, Copy, PartialEq, Eq, Debug)]
pub enum Untaken {
    Unreadable,
    OutOfMemory,
}

impl From<Unreadable> for Untaken {
    ghost from_gives = { λ _ untaken. untaken ≡ Unreadable };

    fn from(_unreadable: Unreadable) -> Untaken {
        Untaken::Unreadable
    }
}

impl From<AllocError> for Untaken {
    ghost from_gives = { λ _ untaken. untaken ≡ OutOfMemory };

    fn from(_error: AllocError) -> Untaken {
        Untaken::OutOfMemory
    }
}

impl fmt::Display for Untaken {
    ghost output = { λ untaken. Some (untaken_text untaken) };

    fn fmt<W: fmt::Write>(&self, f: &mut fmt::Formatter<W>) -> fmt::Result {
        f.write_str(match self {
            Untaken::Unreadable => "unreadable",
            Untaken::OutOfMemory => "out of memory",
        })
    }
}

impl Error for Untaken {}
