// Why two scripts were not compared.
use script::untaken::Untaken;
use std::alloc::AllocError;
use std::{fmt, io};

#[derive(Drop)]
pub enum Uncompared {
    Unreadable { line: u64 },
    Unparted,
    Failed(io::Error),
}

impl Uncompared {
    // Since the line of this number was not taken.
    pub(crate) fn at(line: u64, untaken: Untaken) -> Uncompared {
        match untaken {
            Untaken::Unreadable => Uncompared::Unreadable { line },
            Untaken::OutOfMemory => Uncompared::Failed(io::Error::from(io::ErrorKind::OutOfMemory)),
        }
    }

    // Says so on standard error. Where what is wrong with the scripts can't be said, it says why that can't.
    pub(crate) fn tell(&self, rt: &HostRuntime, name: &str) {
        let said = eprintln!(rt; "{name}: {self}");
        match (self, said) {
            (Uncompared::Unreadable { .. } | Uncompared::Unparted, Err(error)) => {
                let _ = eprintln!(rt; "{name}: {error}");
            }
            _ => {}
        }
    }
}

impl From<io::Error> for Uncompared {
    fn from(error: io::Error) -> Uncompared {
        Uncompared::Failed(error)
    }
}

impl From<AllocError> for Uncompared {
    fn from(error: AllocError) -> Uncompared {
        Uncompared::Failed(io::Error::from(error))
    }
}

impl fmt::Display for Uncompared {
    fn fmt<W: fmt::Write>(&self, f: &mut fmt::Formatter<W>) -> fmt::Result {
        match self {
            Uncompared::Unreadable { line } => write!(f, "line {line} is unreadable"),
            Uncompared::Unparted => f.write_str("no line -- parts two scripts"),
            Uncompared::Failed(error) => error.fmt(f),
        }
    }
}
