// How an account stands: its statement; or its figures, where no statement is given; or why it has neither.
// No Result of either, since there are three ways, and in the second figures and a refusal stand side by side.
ghost use Rattle.std.specs.Prelude.{◌≡◌, Some};
ghost use Rattle.accounts.specs.Steps.{figures, statement};
ghost use Rattle.book.specs.View.{view};
ghost use Rattle.dialogue.specs.Standings.{standing_of, standing_text};

use accounts::figures::Figures;
use accounts::statement::Statement;
use calls::account_key::AccountKey;
use meter::meter::Meter;
use rules::month_rule::MonthRule;
use rules::quote_rule::QuoteRule;
use rules::refusal::Refusal;
use std::fmt;

#[derive(Clone, Copy)]
pub enum Standing {
    Stated(Statement),
    Unstated { figures: Figures, refusal: Refusal },
    Refused(Refusal),
}

impl Standing {
    pub fn of<Q: QuoteRule + Drop, M: MonthRule + Drop>(
        meter: &Meter<Q, M>,
        key: &AccountKey,
    ) -> Standing
        ensures { result ≡ standing_of (figures (view meter.now.book) key.now) (statement (M.MonthRule.verdict meter.now.rulebook.month_rule) (view meter.now.book) key.now) }
    {
        match meter.statement(key) {
            Ok(statement) => Standing::Stated(statement),
            Err(refusal) => match meter.figures(key) {
                Ok(figures) => Standing::Unstated { figures, refusal },
                Err(refusal) => Standing::Refused(refusal),
            },
        }
    }
}

impl fmt::Display for Standing {
    ghost output = { λ s. Some (standing_text s) };

    fn fmt<W: fmt::Write>(&self, f: &mut fmt::Formatter<W>) -> fmt::Result {
        match self {
            Standing::Stated(statement) => statement.fmt(f),
            Standing::Unstated { figures, refusal } => write!(f, "{figures} {refusal}"),
            Standing::Refused(refusal) => refusal.fmt(f),
        }
    }
}
