// What an accepted call leaves, one setter to each kind of call; and one call as a whole. That the call is accepted is a clause
// of each that needs it, since it is a fact of the call and the book together, which no type of either holds.
ghost use Rattle.std.specs.Prelude.{◌≡◌, true, is_err};
ghost use Rattle.calls.specs.declared.call.Call.TheVariants.{Enrol, Strike, Open, At, Close, Turn};
ghost use Rattle.calls.specs.Answers.{accepted};
ghost use Rattle.accounts.specs.Refusals.{refusal};
ghost use Rattle.accounts.specs.Counting.{Rule};
ghost use Rattle.accounts.specs.Steps.{taken, step};
ghost use Rattle.book.specs.View.{view};

use crate::book::Book;
use accounts::market::Market;
use accounts::span::Span;
use calls::account_key::AccountKey;
use calls::call::Call;
use calls::change::Change;
use calls::date::Date;
use rules::conditions::Conditions;
use rules::quote_rule::QuoteRule;
use rules::refusal::Refusal;
use rules::terms::Terms;

impl Book {
    fn enrol(&mut self, key: AccountKey, conditions: Conditions)
        requires { refusal (view self.old) (Enrol key conditions) ≡ accepted }
        ensures { (rule : Rule) → view self.new ≡ taken rule (view self.old) (Enrol key conditions) }
    {
        if let Ok(terms) = Terms::try_from(conditions) {
            self.table.enrol(key, terms);
        }
    }

    fn strike(&mut self, key: &AccountKey)
        ensures { (rule : Rule) → view self.new ≡ taken rule (view self.old) (Strike key.now) }
    {
        self.table.strike(key);
    }

    fn open_day(&mut self, date: Date)
        requires { refusal (view self.old) (Open date) ≡ accepted }
        ensures { (rule : Rule) → view self.new ≡ taken rule (view self.old) (Open date) }
    {
        self.table.open_day();
        self.market = Market::quiet();
        self.day_open = true;
        self.clock = 0;
        self.last = Some(date);
    }

    // The time before the stamp is counted first, under what stood before the change.
    fn touch<Q: QuoteRule>(&mut self, rule: &Q, stamp: u32, change: &Change)
        requires { refusal (view self.old) (At stamp change.now) ≡ accepted }
        ensures { view self.new ≡ taken (Q.QuoteRule.meets rule.now) (view self.old) (At stamp change.now) }
    {
        let span = Span::between(self.clock, stamp, rule, &self.market);
        self.table.touch(&span, change);
        self.market.change(change);
        self.clock = stamp;
    }

    fn close_day<Q: QuoteRule>(&mut self, rule: &Q, stamp: u32)
        requires { refusal (view self.old) (Close stamp) ≡ accepted }
        ensures { view self.new ≡ taken (Q.QuoteRule.meets rule.now) (view self.old) (Close stamp) }
    {
        let rest = Span::between(self.clock, stamp, rule, &self.market);
        self.table.end(&rest);
        self.clock = stamp;
        self.closed += 1;
        self.day_open = false;
    }

    fn turn_month(&mut self)
        ensures { (rule : Rule) → view self.new ≡ taken rule (view self.old) Turn }
    {
        self.table.turn_month();
        self.closed = 0;
    }

    fn take<Q: QuoteRule>(&mut self, rule: &Q, call: &Call)
        requires { refusal (view self.old) call.now ≡ accepted }
        ensures { view self.new ≡ taken (Q.QuoteRule.meets rule.now) (view self.old) call.now }
    {
        match *call {
            Call::Enrol { key, conditions } => self.enrol(key, conditions),
            Call::Strike { key } => self.strike(&key),
            Call::Open { date } => self.open_day(date),
            Call::At { stamp, change } => self.touch(rule, stamp, &change),
            Call::Close { stamp } => self.close_day(rule, stamp),
            Call::Turn => self.turn_month(),
        }
    }

    // One call: its answer, and the book after it.
    pub fn apply<Q: QuoteRule>(&mut self, rule: &Q, call: &Call) -> Result<(), Refusal>
        ensures answer { result ≡ refusal (view self.old) call.now }
        ensures state { view self.new ≡ step (Q.QuoteRule.meets rule.now) (view self.old) call.now }
        ensures refused { is_err result ≡ true → self.new ≡ self.old }
    {
        self.check(call)?;
        self.take(rule, call);
        Ok(())
    }
}
