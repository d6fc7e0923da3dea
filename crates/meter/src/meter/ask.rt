// What a meter tells: which accounts it has, and of each its figures and its statement.
ghost use Rattle.std.specs.Prelude.{◌≡◌};
ghost use Rattle.accounts.specs.Accounts.{key_at};
ghost use Rattle.accounts.specs.Steps.{figures, statement};
ghost use Rattle.book.specs.View.{view};

use crate::meter::Meter;
use accounts::figures::Figures;
use accounts::statement::Statement;
use calls::account_key::AccountKey;
use rules::month_rule::MonthRule;
use rules::quote_rule::QuoteRule;
use rules::refusal::Refusal;

impl<Q: QuoteRule + Drop, M: MonthRule + Drop> Meter<Q, M> {
    // What names the account at a place, in order of enrolment from 0.
    pub fn key_at(&self, place: usize) -> Option<AccountKey>
        ensures { result ≡ key_at (view self.now.book).accounts place }
    {
        self.book.key_at(place)
    }

    // Today's obliged and qualified time; the month's, with days and kept days.
    pub fn figures(&self, key: &AccountKey) -> Result<Figures, Refusal>
        ensures { result ≡ figures (view self.now.book) key.now }
    {
        self.book.figures(key)
    }

    // The figures and the month rule's verdict.
    pub fn statement(&self, key: &AccountKey) -> Result<Statement, Refusal>
        ensures { result ≡ statement (M.MonthRule.verdict self.now.rulebook.month_rule) (view self.now.book) key.now }
    {
        self.book.statement(&self.rulebook.month_rule, key)
    }
}
