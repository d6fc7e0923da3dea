// A run of a meter from its making.
ghost use Rattle.std.specs.Prelude.{◌≡◌, IfOk};
ghost use Rattle.laws.specs.Runs.{outcome, Ran};

use calls::call::Call;
use meter::meter::Meter;
use rules::month_rule::MonthRule;
use rules::quote_rule::QuoteRule;
use rules::refusal::Refusal;
use rules::rulebook::Rulebook;
use std::alloc::{AllocError, Global};

// A meter after its run, with what each call was answered. It keeps no calls: with them what it ran could be a ghost field, but
// a caller would have to keep the lists as long as the run.
#[derive(Drop)]
pub struct Run<Q, M> {
    pub meter: Meter<Q, M>,
    pub answers: Vec<Result<(), Refusal>>,
}

// Runs the calls on a meter just made of the rulebook.
pub fn replay<Q: QuoteRule + Drop, M: MonthRule + Drop>(
    heap: Global,
    rulebook: Rulebook<Q, M>,
    calls: &[Call],
) -> Result<Run<Q, M>, AllocError>
    ensures rulebook { IfOk result (λ k. k.meter.rulebook ≡ rulebook) }
    ensures ran { IfOk result (λ k. Ran (outcome Q.QuoteRule M.MonthRule calls.now k)) }
{
    let mut answers = vec![in heap; Ok(()); calls.len()]?;
    let mut meter = Meter::new(heap, rulebook)?;
    meter.run(calls, &mut answers);
    Ok(Run { meter, answers })
}
