// What is against a call: its fields, the day and the clock, the account table, the month, in this order.
ghost use Rattle.std.specs.Prelude.{◌≡◌};
ghost use Rattle.rules.specs.declared.refusal.Refusal.TheVariants.{DaysUnturned};
ghost use Rattle.calls.specs.Answers.{when, accepted};
ghost use Rattle.accounts.specs.Refusals.{between_days, within_day, day_refusal, account_of, unturned, not_after, other_month, date_refusal, month_refusal, refusal};
ghost use Rattle.accounts.specs.Views.{enrolled_in};
ghost use Rattle.book.specs.View.{view};

use crate::book::Book;
use calls::account_key::AccountKey;
use calls::call::Call;
use calls::date::Date;
use rules::refusal::Refusal;

const MOST_DAYS: u32 = 31;

impl Book {
    fn check_between(&self) -> Result<(), Refusal>
        ensures { result ≡ between_days (view self.now).frame }
    {
        if self.day_open {
            return Err(Refusal::DayOpen);
        }
        Ok(())
    }

    fn check_within(&self, stamp: u32) -> Result<(), Refusal>
        ensures { result ≡ within_day (view self.now).frame stamp }
    {
        if !self.day_open {
            return Err(Refusal::NoDayOpen);
        }
        if stamp < self.clock {
            return Err(Refusal::StampBelowClock);
        }
        Ok(())
    }

    fn check_day(&self, call: &Call) -> Result<(), Refusal>
        ensures { result ≡ day_refusal (view self.now).frame call.now }
    {
        match *call {
            Call::Enrol { .. } | Call::Strike { .. } | Call::Open { .. } | Call::Turn => {
                self.check_between()
            }
            Call::At { stamp, .. } | Call::Close { stamp } => self.check_within(stamp),
        }
    }

    // Whether the date is not after the last opened.
    fn not_after(&self, date: &Date) -> bool
        ensures { result ≡ not_after self.now.last date.now }
    {
        self.last.is_some_and(|last| *date <= last)
    }

    // Whether the date is in another month or year than the last opened.
    fn other_month(&self, date: &Date) -> bool
        ensures { result ≡ other_month self.now.last date.now }
    {
        self.last.is_some_and(|last| !date.is_same_month(&last))
    }

    fn check_date(&self, date: &Date) -> Result<(), Refusal>
        ensures { result ≡ date_refusal self.now.last self.now.closed date.now }
    {
        if self.not_after(date) {
            return Err(Refusal::DateNotAfterLast);
        }
        if self.closed > 0 && self.other_month(date) {
            return Err(Refusal::DaysUnturned);
        }
        if self.closed >= MOST_DAYS {
            return Err(Refusal::MonthFull);
        }
        Ok(())
    }

    fn check_turned(&self, key: &AccountKey) -> Result<(), Refusal>
        ensures { result ≡ when (unturned (account_of key.now (enrolled_in self.now.table))) DaysUnturned accepted }
    {
        let account = self.table.account(key);
        if account.is_some_and(|account| account.figures().month.days > 0) {
            return Err(Refusal::DaysUnturned);
        }
        Ok(())
    }

    fn check_month(&self, call: &Call) -> Result<(), Refusal>
        ensures { result ≡ month_refusal (view self.now).frame (view self.now).accounts call.now }
    {
        match *call {
            Call::Strike { key } => self.check_turned(&key),
            Call::Open { date } => self.check_date(&date),
            Call::Enrol { .. } | Call::At { .. } | Call::Close { .. } | Call::Turn => Ok(()),
        }
    }

    // Accepted, or the first refusal in the order of the places.
    pub fn check(&self, call: &Call) -> Result<(), Refusal>
        ensures { result ≡ refusal (view self.now) call.now }
    {
        call.check_fields()?;
        self.check_day(call)?;
        self.table.check(call)?;
        self.check_month(call)
    }
}
