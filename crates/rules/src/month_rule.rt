// What a month rule is: the verdict on a month's figures, under the account's threshold.
ghost use Rattle.std.specs.Prelude.{◌≡◌, ℕ};
ghost use Rattle.rules.specs.declared.month_figures.MonthFigures.{MonthFigures};
ghost use Rattle.rules.specs.declared.verdict.Verdict.{Verdict};
ghost use Rattle.rules.specs.declared.verdict.Verdict.TheVariants.{Kept};
ghost use Rattle.rules.specs.Months.{NoWorse};

use crate::month_figures::MonthFigures;
use crate::verdict::Verdict;

pub trait MonthRule {
    // the verdict on these figures under this threshold, in basis points
    ghost verdict: { Self → MonthFigures → ℕ → Verdict };

    fn verdict(&self, figures: &MonthFigures, threshold: u16) -> Verdict
        ensures { result ≡ verdict self.now figures.now threshold };

    // With obliged time, days and threshold fixed, more qualified time or more kept days never turn kept into breach.
    ghost upward: { (rule : Self) (f g : MonthFigures) (threshold : ℕ) → NoWorse g f → verdict rule f threshold ≡ Kept → verdict rule g threshold ≡ Kept };
}
