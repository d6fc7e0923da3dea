// The day's and the month's work on the accounts.
ghost use Rattle.std.specs.Prelude.{◌≡◌, ℕ, ◌-◌, ◌<◌, ◌≢◌, All, map, length, get_or, slice_index_or, slice_set};
ghost use Rattle.accounts.specs.declared.account.Account.{Account};
ghost use Rattle.accounts.specs.Accounts.{touched, ended, account_opened, account_turned};
ghost use Rattle.accounts.specs.Bounds.{DayBounds, MonthBounds};
ghost use Rattle.accounts.specs.Changes.{MayCall, Leaves, Makes};
ghost use Rattle.accounts.specs.Views.{enrolled_in, trading_in};

use crate::account::Account;
use crate::span::Span;
use crate::table::Table;
use calls::change::Change;
use rules::quote_rule::QuoteRule;

impl Table {
    // Lends one account to the step. All others stay, with their quotes.
    fn change_one<F: Fn(&mut Account)>(&mut self, place: usize, step: &F)
        requires within { place < length (enrolled_in self.old) }
        requires takes { (d : Account) → MayCall F.Fn step.now (slice_index_or (enrolled_in self.old) place d) }
        ensures others { (j : ℕ) (d : Account) → j ≢ place → (get_or (enrolled_in self.new) j d).quote ≡ (get_or (enrolled_in self.old) j d).quote }
        ensures account { (d : Account) → Leaves F.Fn step.now (slice_index_or (enrolled_in self.old) place d) (slice_index_or (enrolled_in self.new) place d) }
        ensures rest { (d : Account) → enrolled_in self.new ≡ slice_set (enrolled_in self.old) place (slice_index_or (enrolled_in self.new) place d) }
    {
        step(&mut self.accounts[place]);
    }

    // Lends every account to the step, one at a time: by its place, since it is a rule here that one account is lent with a promise
    // of all others, which `change_one` makes of a place.
    fn change_each<F: Fn(&mut Account)>(&mut self, step: F)
        requires { All (MayCall F.Fn step) (enrolled_in self.old) }
        ensures { (f : Account → Account) → All (Makes F.Fn step f) (enrolled_in self.old) → enrolled_in self.new ≡ map f (enrolled_in self.old) }
    {
        for place in 0..self.accounts.len() {
            self.change_one(place, &step);
        }
    }

    // Settles every account, and sets what the change sets.
    pub fn touch<Q: QuoteRule>(&mut self, span: &Span<'_, Q>, change: &Change)
        requires { All (DayBounds (86_400_000 - span.now.length)) (enrolled_in self.old) }
        ensures { enrolled_in self.new ≡ map (touched (Q.QuoteRule.meets span.now.rule.now) (trading_in span.now.market.now) span.now.length change.now) (enrolled_in self.old) }
    {
        self.change_each(|account| account.touch(span, change));
    }

    // Settles every account, and ends the day.
    pub fn end<Q: QuoteRule>(&mut self, span: &Span<'_, Q>)
        requires bounds { All (DayBounds (86_400_000 - span.now.length)) (enrolled_in self.old) }
        requires month { All (MonthBounds 30) (enrolled_in self.old) }
        ensures { enrolled_in self.new ≡ map (ended (Q.QuoteRule.meets span.now.rule.now) (trading_in span.now.market.now) span.now.length) (enrolled_in self.old) }
    {
        self.change_each(|account| account.end(span));
    }

    // Nobody exempt, no quote standing.
    pub fn open_day(&mut self)
        ensures { enrolled_in self.new ≡ map account_opened (enrolled_in self.old) }
    {
        self.change_each(|account| account.open_day());
    }

    // Sets all month figures to 0.
    pub fn turn_month(&mut self)
        ensures { enrolled_in self.new ≡ map account_turned (enrolled_in self.old) }
    {
        self.change_each(|account| account.turn_month());
    }
}
