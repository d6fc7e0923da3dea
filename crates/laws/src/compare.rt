// Two runs of two meters, side by side, and the laws that hold of them.
ghost use Rattle.std.specs.Prelude.{◌≡◌, IfOk};
ghost use Rattle.laws.specs.Runs.{outcome, Ran};
ghost use Rattle.laws.specs.Laws.{LawsHold};

use crate::replay::{Run, replay};
use calls::call::Call;
use rules::month_rule::MonthRule;
use rules::quote_rule::QuoteRule;
use rules::rulebook::Rulebook;
use std::alloc::{AllocError, Global};

#[derive(Drop)]
pub struct Compared<Q, M> {
    pub first: Run<Q, M>,
    pub second: Run<Q, M>,
}

// Runs each list of calls on a meter just made of the rulebook given for it. Where the two are made alike, tighter quoting never
// costs and the order inside a millisecond never matters; of either, time is what the milliseconds say. The two lists stay two
// parameters here and in `relation`: they are told apart by order alone, as they would be in a pair.
pub fn compare<Q: QuoteRule + Drop, M: MonthRule + Drop>(
    heap: Global,
    first_rulebook: Rulebook<Q, M>,
    second_rulebook: Rulebook<Q, M>,
    first: &[Call],
    second: &[Call],
) -> Result<Compared<Q, M>, AllocError>
    ensures rulebooks { IfOk result (λ k. (k.first.meter.rulebook ≡ first_rulebook) × (k.second.meter.rulebook ≡ second_rulebook)) }
    ensures runs { IfOk result (λ k. Ran (outcome Q.QuoteRule M.MonthRule first.now k.first) × Ran (outcome Q.QuoteRule M.MonthRule second.now k.second)) }
    ensures laws { IfOk result (λ k. LawsHold (outcome Q.QuoteRule M.MonthRule first.now k.first) (outcome Q.QuoteRule M.MonthRule second.now k.second)) }
{
    let one = replay(heap, first_rulebook, first)?;
    let two = replay(heap, second_rulebook, second)?;
    Ok(Compared {
        first: one,
        second: two,
    })
}
