// One call of any kind, and a list of them.
ghost use Rattle.std.specs.Prelude.{◌≡◌, min, ◌++◌, length, take, drop};
ghost use Rattle.accounts.specs.Steps.{run, answers};
ghost use Rattle.book.specs.View.{view};
ghost use Rattle.meter.specs.Takes.{Takes};

use crate::meter::Meter;
use calls::call::Call;
use rules::month_rule::MonthRule;
use rules::quote_rule::QuoteRule;
use rules::refusal::Refusal;

impl<Q: QuoteRule + Drop, M: MonthRule + Drop> Meter<Q, M> {
    pub fn apply(&mut self, call: &Call) -> Result<(), Refusal>
        ensures { Takes (Q.QuoteRule.meets self.old.rulebook.quote_rule) self.old call.now result self.new }
    {
        self.book.apply(&self.rulebook.quote_rule, call)
    }

    // Runs as many of the calls as there are places for their answers, and tells how many. Each answer goes to its call's place;
    // the places behind them stay as they are.
    pub fn run(&mut self, calls: &[Call], told: &mut [Result<(), Refusal>]) -> usize
        ensures count { result ≡ min (length calls.now) (length told.old) }
        ensures answers { told.new ≡ answers (Q.QuoteRule.meets self.old.rulebook.quote_rule) (view self.old.book) (take result calls.now) ++ drop result told.old }
        ensures left { view self.new.book ≡ run (Q.QuoteRule.meets self.old.rulebook.quote_rule) (view self.old.book) (take result calls.now) }
        ensures rulebook { self.new.rulebook ≡ self.old.rulebook }
    {
        // the places by number: of places lent by `iter_mut` beside the calls a proof knows their number alone
        let count = calls.len().min(told.len());
        for (place, call) in calls[..count].iter().enumerate() {
            told[place] = self.apply(call);
        }
        count
    }
}
