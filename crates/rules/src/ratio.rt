// Vienna's and Zagreb's month: kept where the qualified time reaches the threshold's share of the obliged time.
ghost use Rattle.std.specs.Prelude.{◌≡◌};
ghost use Rattle.rules.specs.Months.{ratio_verdict, KeptJustWhere, KeepsRatio};
ghost use Rattle.std.proofs.Common.{rules};

use crate::month_figures::MonthFigures;
use crate::month_rule::MonthRule;
use crate::verdict::Verdict;

#[derive(Clone, Copy)]
pub struct Ratio;

impl MonthRule for Ratio {
    ghost verdict = { λ _. ratio_verdict };

    ghost upward = { Prim.search rules };

    fn verdict(&self, figures: &MonthFigures, threshold: u16) -> Verdict
        ensures value { result ≡ ratio_verdict figures.now threshold }
        ensures plainly { KeptJustWhere result (KeepsRatio figures.now threshold) }
    {
        if figures.qualified as u64 * 10_000 >= threshold as u64 * figures.obliged as u64 {
            Verdict::Kept
        } else {
            Verdict::Breach
        }
    }
}
