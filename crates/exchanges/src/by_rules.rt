// Work that is done by the rules of an exchange, whichever it is.
ghost use Rattle.std.specs.Prelude.{◌≡◌, ℕ, Bool};
ghost use Rattle.rules.specs.declared.quote.Quote.{Quote};
ghost use Rattle.rules.specs.declared.terms.Terms.{Terms};
ghost use Rattle.rules.specs.declared.month_figures.MonthFigures.{MonthFigures};
ghost use Rattle.rules.specs.declared.verdict.Verdict.{Verdict};
ghost use Rattle.exchanges.specs.Rules.{meets_at, better_at, verdict_at};

use crate::exchange::Exchange;
use rules::beta::Beta;
use rules::majority::Majority;
use rules::month_rule::MonthRule;
use rules::quote_rule::QuoteRule;
use rules::ratio::Ratio;
use rules::rulebook::Rulebook;
use rules::vienna::Vienna;
use rules::zagreb::Zagreb;

pub trait ByRules {
    type Outcome;

    // what may come of the work, by which quotes meet which terms, which are better than which, and the verdict on a month
    ghost comes: { Self → (Quote → Terms → Bool) → (Quote → Quote → Bool) → (MonthFigures → ℕ → Verdict) → Self.Outcome → Type 0 };

    fn by_rules<Q: QuoteRule + Copy + Drop, M: MonthRule + Copy + Drop>(
        self,
        rt: &HostRuntime,
        rulebook: Rulebook<Q, M>,
    ) -> Self::Outcome
        ensures { comes self (Q.QuoteRule.meets rulebook.quote_rule) (Q.QuoteRule.better rulebook.quote_rule) (M.MonthRule.verdict rulebook.month_rule) result };
}

impl Exchange {
    // Does the work by this exchange's rulebook.
    pub fn run<W: ByRules>(self, rt: &HostRuntime, work: W) -> W::Outcome
        ensures { W.comes work (meets_at self) (better_at self) (verdict_at self) result }
    {
        match self {
            Exchange::Vienna => work.by_rules(
                rt,
                Rulebook {
                    quote_rule: Vienna,
                    month_rule: Ratio,
                },
            ),
            Exchange::Zagreb => work.by_rules(
                rt,
                Rulebook {
                    quote_rule: Zagreb,
                    month_rule: Ratio,
                },
            ),
            Exchange::Beta => work.by_rules(
                rt,
                Rulebook {
                    quote_rule: Beta,
                    month_rule: Majority,
                },
            ),
        }
    }
}
