// Whether an account kept its obligation in a month.
ghost use Rattle.std.specs.Prelude.{Some};
ghost use Rattle.rules.specs.Verdicts.{verdict_text};

use std::fmt;

#[derive(Clone, Copy, PartialEq, Eq, Debug)]
pub enum Verdict {
    Kept,
    Breach,
}

impl fmt::Display for Verdict {
    ghost output = { λ verdict. Some (verdict_text verdict) };

    fn fmt<W: fmt::Write>(&self, f: &mut fmt::Formatter<W>) -> fmt::Result {
        f.write_str(match self {
            Verdict::Kept => "KEPT",
            Verdict::Breach => "BREACH",
        })
    }
}
