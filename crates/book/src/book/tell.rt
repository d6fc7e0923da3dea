// A new book, and what a book tells of an account.
ghost use Rattle.std.specs.Prelude.{◌≡◌, IfOk};
ghost use Rattle.accounts.specs.Accounts.{key_at};
ghost use Rattle.accounts.specs.Steps.{just_made, figures, statement};
ghost use Rattle.book.specs.View.{view};

use crate::book::Book;
use accounts::figures::Figures;
use accounts::market::Market;
use accounts::statement::Statement;
use accounts::table::Table;
use calls::account_key::AccountKey;
use rules::month_rule::MonthRule;
use rules::refusal::Refusal;
use std::alloc::{AllocError, Global};

impl Book {
    // No account, no day open, no last date and no closed day.
    pub fn new(heap: Global) -> Result<Book, AllocError>
        ensures { IfOk result (λ b. view b ≡ just_made) }
    {
        let table = Table::new(heap)?;
        Ok(Book {
            table,
            market: Market::quiet(),
            day_open: false,
            clock: 0,
            last: None,
            closed: 0,
        })
    }

    // What names the account at a place, in order of enrolment from 0.
    pub fn key_at(&self, place: usize) -> Option<AccountKey>
        ensures { result ≡ key_at (view self.now).accounts place }
    {
        self.table.key_at(place)
    }

    // An account's figures of today and of the month.
    pub fn figures(&self, key: &AccountKey) -> Result<Figures, Refusal>
        ensures { result ≡ figures (view self.now) key.now }
    {
        if !key.in_range() {
            return Err(Refusal::FieldOutOfRange);
        }
        let account = self.table.account(key).ok_or(Refusal::NotEnrolled)?;
        Ok(account.figures())
    }

    // An account's figures with the verdict on its month.
    pub fn statement<M: MonthRule>(&self, rule: &M, key: &AccountKey) -> Result<Statement, Refusal>
        ensures { result ≡ statement (M.MonthRule.verdict rule.now) (view self.now) key.now }
    {
        if !key.in_range() {
            return Err(Refusal::FieldOutOfRange);
        }
        if self.day_open {
            return Err(Refusal::DayOpen);
        }
        let account = self.table.account(key).ok_or(Refusal::NotEnrolled)?;
        let figures = account.figures();
        if figures.month.obliged == 0 {
            return Err(Refusal::NoObligedTime);
        }
        let verdict = rule.verdict(&figures.month, account.terms().threshold());
        Ok(Statement { figures, verdict })
    }
}
