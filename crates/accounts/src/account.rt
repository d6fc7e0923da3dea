// One account: its terms, what stands today, and its figures.
ghost use Rattle.std.specs.Prelude.{◌≡◌, ◌-◌};
ghost use Rattle.accounts.specs.Accounts.{is, settled, account_changed, account_opened, account_closed, account_turned, touched, ended, newly_enrolled, figures_of};
ghost use Rattle.accounts.specs.Counting.{stands, kept_day};
ghost use Rattle.accounts.specs.Bounds.{DayBounds, MonthBounds};
ghost use Rattle.accounts.specs.Views.{trading_in};

use crate::day_figures::DayFigures;
use crate::figures::Figures;
use crate::span::Span;
use calls::account_key::AccountKey;
use calls::change::Change;
use rules::month_figures::MonthFigures;
use rules::quote::Quote;
use rules::quote_rule::QuoteRule;
use rules::terms::Terms;

// Its bounds (specs/Bounds) are clauses and no ghost fields: as these, every definition that writes an account would have to
// carry their proof.
#[derive(Clone, Copy)]
pub struct Account {
    key: AccountKey,
    terms: Terms,
    exempt: bool,
    quote: Option<Quote>,
    today: DayFigures,
    month: MonthFigures,
}

impl Account {
    // An account with all figures 0.
    pub fn new(key: AccountKey, terms: Terms) -> Account
        ensures { result ≡ newly_enrolled key terms }
    {
        Account {
            key,
            terms,
            exempt: false,
            quote: None,
            today: DayFigures::default(),
            month: MonthFigures::default(),
        }
    }

    // Whether the key names this account.
    pub fn is(&self, key: &AccountKey) -> bool
        ensures { result ≡ is key.now self.now }
    {
        *key == self.key
    }

    pub fn key(&self) -> AccountKey
        ensures { result ≡ self.now.key }
    {
        self.key
    }

    pub fn terms(&self) -> Terms
        ensures { result ≡ self.now.terms }
    {
        self.terms
    }

    pub fn figures(&self) -> Figures
        ensures { result ≡ figures_of self.now }
    {
        Figures {
            today: self.today,
            month: self.month,
        }
    }

    // Whether a quote stands and meets the account's terms.
    fn stands<Q: QuoteRule>(&self, rule: &Q) -> bool
        ensures { result ≡ stands (Q.QuoteRule.meets rule.now) self.now.terms self.now.quote }
    {
        // by reference: a copy, for every account at every stamp, takes its time
        self.quote
            .as_ref()
            .is_some_and(|quote| rule.meets(quote, &self.terms))
    }

    // Counts the time of the span under what stands.
    pub fn settle<Q: QuoteRule>(&mut self, span: &Span<'_, Q>)
        requires { DayBounds (86_400_000 - span.now.length) self.old }
        ensures { self.new ≡ settled (Q.QuoteRule.meets span.now.rule.now) (trading_in span.now.market.now) span.now.length self.old }
    {
        let phase = span.market.phase_of(self.key.instrument);
        let obliged = phase.is_continuous() && !span.market.is_fast() && !self.exempt;
        if obliged {
            self.today.obliged += span.length;
            if self.stands(span.rule) {
                self.today.qualified += span.length;
            }
        }
    }

    // Sets what the change sets of this account.
    pub fn change(&mut self, change: &Change)
        ensures { self.new ≡ account_changed change.now self.old }
    {
        match *change {
            Change::Exempt { key, flag } if self.is(&key) => self.exempt = flag == 1,
            Change::Quote { key, sides } if self.is(&key) => {
                self.quote = Quote::try_from(sides).ok();
            }
            Change::Withdraw { key } if self.is(&key) => self.quote = None,
            // a change of the market, or of another account
            Change::Phase { .. }
            | Change::Fast { .. }
            | Change::Exempt { .. }
            | Change::Quote { .. }
            | Change::Withdraw { .. } => {}
        }
    }

    // Settles, and sets what the change sets.
    pub fn touch<Q: QuoteRule>(&mut self, span: &Span<'_, Q>, change: &Change)
        requires { DayBounds (86_400_000 - span.now.length) self.old }
        ensures { self.new ≡ touched (Q.QuoteRule.meets span.now.rule.now) (trading_in span.now.market.now) span.now.length change.now self.old }
    {
        self.settle(span);
        self.change(change);
    }

    // Not exempt, no quote standing.
    pub fn open_day(&mut self)
        ensures { self.new ≡ account_opened self.old }
    {
        self.exempt = false;
        self.quote = None;
    }

    // Whether today would be a kept day, if it closed now.
    fn keeps_today(&self) -> bool
        ensures { result ≡ kept_day self.now.terms self.now.today }
    {
        let DayFigures { obliged, qualified } = self.today;
        obliged > 0 && self.terms.threshold() as u64 * obliged as u64 <= qualified as u64 * 10_000
    }

    // Adds today's figures to the month's.
    pub fn close_day(&mut self)
        requires today { DayBounds 86_400_000 self.old }
        requires month { MonthBounds 30 self.old }
        ensures { self.new ≡ account_closed self.old }
    {
        let kept = self.keeps_today();
        self.month.obliged += self.today.obliged;
        self.month.qualified += self.today.qualified;
        self.month.days += 1;
        self.month.kept_days += if kept { 1 } else { 0 };
        self.today = DayFigures::default();
    }

    // Settles, and closes the day.
    pub fn end<Q: QuoteRule>(&mut self, span: &Span<'_, Q>)
        requires bounds { DayBounds (86_400_000 - span.now.length) self.old }
        requires month { MonthBounds 30 self.old }
        ensures { self.new ≡ ended (Q.QuoteRule.meets span.now.rule.now) (trading_in span.now.market.now) span.now.length self.old }
    {
        self.settle(span);
        self.close_day();
    }

    // Sets the month's figures to 0.
    pub fn turn_month(&mut self)
        ensures { self.new ≡ account_turned self.old }
    {
        self.month = MonthFigures::default();
    }
}
