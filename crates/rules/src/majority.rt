// BETa's month: kept where more than half of the days were kept.
ghost use Rattle.std.specs.Prelude.{◌≡◌};
ghost use Rattle.rules.specs.Months.{majority_verdict, KeptJustWhere, KeepsMajority};
ghost use Rattle.std.proofs.Common.{rules};

use crate::month_figures::MonthFigures;
use crate::month_rule::MonthRule;
use crate::verdict::Verdict;

#[derive(Clone, Copy)]
pub struct Majority;

impl MonthRule for Majority {
    ghost verdict = { λ _. majority_verdict };

    ghost upward = { Prim.search rules };

    fn verdict(&self, figures: &MonthFigures, _threshold: u16) -> Verdict
        ensures value { result ≡ majority_verdict figures.now _threshold }
        ensures plainly { KeptJustWhere result (KeepsMajority figures.now) }
    {
        if 2 * figures.kept_days as u64 > figures.days as u64 {
            Verdict::Kept
        } else {
            Verdict::Breach
        }
    }
}
