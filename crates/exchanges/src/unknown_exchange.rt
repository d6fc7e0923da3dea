// That no exchange has a name.
ghost use Rattle.std.specs.Prelude.{Some, codes};

use std::error::Error;
use std::fmt;

#[derive(Clone, Copy, PartialEq, Eq, Debug)]
pub struct UnknownExchange;

impl fmt::Display for UnknownExchange {
    ghost output = { λ _. Some (codes "unknown exchange") };

    fn fmt<W: fmt::Write>(&self, f: &mut fmt::Formatter<W>) -> fmt::Result {
        f.write_str("unknown exchange")
    }
}

impl Error for UnknownExchange {}
