// Calls that may stand in a bettered copy.
ghost use Rattle.std.specs.Prelude.{◌≡◌, ℕ, true, Decides};
ghost use Rattle.rules.specs.declared.quote.Quote.{Quote};
ghost use Rattle.rules.specs.Quotes.{sides_of};
ghost use Rattle.calls.specs.declared.account_key.AccountKey.{AccountKey};
ghost use Rattle.laws.specs.Tighter.{Bettered, Each};

use crate::at_once::changes_at_once;
use calls::call::Call;
use calls::change::Change;
use rules::quote::Quote;
use rules::quote_rule::QuoteRule;
use rules::sides::Sides;

// Whether the sides make a quote.
fn is_lawful(given: Sides) -> bool
    ensures { Decides result ((q : Quote) × (sides_of q ≡ given)) }
{
    Quote::try_from(given).is_ok()
}

// Whether both make a quote, the new one better than the old.
fn is_tighter<Q: QuoteRule>(rule: &Q, old: Sides, new: Sides) -> bool
    ensures { result ≡ true → (n : ℕ) (k : AccountKey) → Bettered (Q.QuoteRule.better rule.now) (Call.At n (Change.Quote k old)) (Call.At n (Change.Quote k new)) }
{
    match (Quote::try_from(old), Quote::try_from(new)) {
        (Ok(old), Ok(new)) => rule.is_better(&new, &old),
        _ => false,
    }
}

// Whether the new change may stand in the place of the old one, at any stamp.
fn betters_change<Q: QuoteRule>(rule: &Q, old: &Change, new: &Change) -> bool
    ensures { result ≡ true → (n : ℕ) → Bettered (Q.QuoteRule.better rule.now) (Call.At n old.now) (Call.At n new.now) }
{
    match (*old, *new) {
        (Change::Quote { key: k, sides: s }, Change::Quote { key: l, sides: t }) => k == l
            && is_tighter(rule, s, t),
        (Change::Withdraw { key: k }, Change::Quote { key: l, sides: t }) => k == l && is_lawful(t),
        _ => false,
    }
}

// Whether the new call may stand in the place of the old one.
fn betters<Q: QuoteRule>(rule: &Q, old: &Call, new: &Call) -> bool
    ensures { result ≡ true → Bettered (Q.QuoteRule.better rule.now) old.now new.now }
{
    old == new || changes_at_once(old, new).is_some_and(|(c, d)| betters_change(rule, &c, &d))
}

// Whether the second list is a bettered copy of the first.
pub fn is_bettered<Q: QuoteRule>(rule: &Q, first: &[Call], second: &[Call]) -> bool
    ensures { result ≡ true → Each (Bettered (Q.QuoteRule.better rule.now)) first.now second.now }
{
    first.len() == second.len()
        && first
            .iter()
            .zip(second)
            .all(|(old, new)| betters(rule, old, new))
}
