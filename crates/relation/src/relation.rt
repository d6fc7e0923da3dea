// In which relation two lists of calls are.
ghost use Rattle.std.specs.Prelude.{IfOk};
ghost use Rattle.relation.specs.Related.{Related};

use crate::bettered::is_bettered;
pub use crate::related::Relation;
use crate::reordered::is_reordered;
use calls::call::Call;
use rules::quote_rule::QuoteRule;
use std::alloc::{AllocError, Global};

// The first relation found of the second list to the first, in the order in which `Relation` lists them; nothing where none was.
pub fn relation<Q: QuoteRule>(
    heap: Global,
    rule: &Q,
    first: &[Call],
    second: &[Call],
) -> Result<Option<Relation>, AllocError>
    ensures { IfOk result (λ found. Related (Q.QuoteRule.better rule.now) first.now second.now found) }
{
    if first == second {
        return Ok(Some(Relation::Same));
    }
    if is_bettered(rule, first, second) {
        return Ok(Some(Relation::Bettered));
    }
    if is_reordered(heap, first, second)? {
        return Ok(Some(Relation::Reordered));
    }
    Ok(None)
}
