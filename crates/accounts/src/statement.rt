// An account's figures with the verdict on its month.
ghost use Rattle.std.specs.Prelude.{Some};
ghost use Rattle.accounts.specs.Texts.{statement_text};

use crate::figures::Figures;
use rules::verdict::Verdict;
use std::fmt;

#[derive(Clone, Copy)]
pub struct Statement {
    pub figures: Figures,
    pub verdict: Verdict,
}

impl fmt::Display for Statement {
    ghost output = { λ statement. Some (statement_text statement) };

    fn fmt<W: fmt::Write>(&self, f: &mut fmt::Formatter<W>) -> fmt::Result {
        let Statement { figures, verdict } = *self;
        write!(f, "{figures} {verdict}")
    }
}
