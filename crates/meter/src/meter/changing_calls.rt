// The ten calls that change a meter. Phases and flags are taken as the numbers that come: one that is out of range is refused,
// and a narrower type would ask more of every caller.
ghost use Rattle.calls.specs.declared.call.Call.TheVariants.{Enrol, Strike, Open, At, Close, Turn};
ghost use Rattle.calls.specs.declared.change.Change.TheVariants.{Phase, Fast, Exempt, Quote, Withdraw};
ghost use Rattle.meter.specs.Takes.{Takes};

use crate::meter::Meter;
use calls::account_key::AccountKey;
use calls::call::Call;
use calls::change::Change;
use calls::date::Date;
use rules::conditions::Conditions;
use rules::month_rule::MonthRule;
use rules::quote_rule::QuoteRule;
use rules::refusal::Refusal;
use rules::sides::Sides;

impl<Q: QuoteRule + Drop, M: MonthRule + Drop> Meter<Q, M> {
    // Adds an account with all figures 0, behind the others.
    pub fn enrol(&mut self, key: AccountKey, conditions: Conditions) -> Result<(), Refusal>
        ensures { Takes (Q.QuoteRule.meets self.old.rulebook.quote_rule) self.old (Enrol key conditions) result self.new }
    {
        self.apply(&Call::Enrol { key, conditions })
    }

    // Removes an account; those behind it move up, and the freed place serves the next one enrolled.
    pub fn strike(&mut self, key: AccountKey) -> Result<(), Refusal>
        ensures { Takes (Q.QuoteRule.meets self.old.rulebook.quote_rule) self.old (Strike key) result self.new }
    {
        self.apply(&Call::Strike { key })
    }

    // Opens a day.
    pub fn open(&mut self, date: Date) -> Result<(), Refusal>
        ensures { Takes (Q.QuoteRule.meets self.old.rulebook.quote_rule) self.old (Open date) result self.new }
    {
        self.apply(&Call::Open { date })
    }

    // Sets one instrument's phase from the stamp on.
    pub fn phase(&mut self, instrument: u32, phase: u32, stamp: u32) -> Result<(), Refusal>
        ensures { Takes (Q.QuoteRule.meets self.old.rulebook.quote_rule) self.old (At stamp (Phase instrument phase)) result self.new }
    {
        self.apply(&Call::At {
            stamp,
            change: Change::Phase { instrument, phase },
        })
    }

    // Sets the market's flag from the stamp on.
    pub fn fast(&mut self, flag: u32, stamp: u32) -> Result<(), Refusal>
        ensures { Takes (Q.QuoteRule.meets self.old.rulebook.quote_rule) self.old (At stamp (Fast flag)) result self.new }
    {
        self.apply(&Call::At {
            stamp,
            change: Change::Fast { flag },
        })
    }

    // Sets one account's exemption from the stamp on.
    pub fn exempt(&mut self, key: AccountKey, flag: u32, stamp: u32) -> Result<(), Refusal>
        ensures { Takes (Q.QuoteRule.meets self.old.rulebook.quote_rule) self.old (At stamp (Exempt key flag)) result self.new }
    {
        self.apply(&Call::At {
            stamp,
            change: Change::Exempt { key, flag },
        })
    }

    // Replaces an account's standing quote from the stamp on.
    pub fn quote(&mut self, key: AccountKey, stamp: u32, sides: Sides) -> Result<(), Refusal>
        ensures { Takes (Q.QuoteRule.meets self.old.rulebook.quote_rule) self.old (At stamp (Quote key sides)) result self.new }
    {
        self.apply(&Call::At {
            stamp,
            change: Change::Quote { key, sides },
        })
    }

    // Ends an account's standing quote at the stamp; accepted where none stands.
    pub fn withdraw(&mut self, key: AccountKey, stamp: u32) -> Result<(), Refusal>
        ensures { Takes (Q.QuoteRule.meets self.old.rulebook.quote_rule) self.old (At stamp (Withdraw key)) result self.new }
    {
        self.apply(&Call::At {
            stamp,
            change: Change::Withdraw { key },
        })
    }

    // Ends the day at the stamp, and adds its figures to the month's.
    pub fn close(&mut self, stamp: u32) -> Result<(), Refusal>
        ensures { Takes (Q.QuoteRule.meets self.old.rulebook.quote_rule) self.old (Close stamp) result self.new }
    {
        self.apply(&Call::Close { stamp })
    }

    // Sets all month figures and the closed days to 0.
    pub fn turn(&mut self) -> Result<(), Refusal>
        ensures { Takes (Q.QuoteRule.meets self.old.rulebook.quote_rule) self.old Turn result self.new }
    {
        self.apply(&Call::Turn)
    }
}
