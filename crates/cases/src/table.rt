// A table's row: terms, a quote, and whether the quote meets the terms.
use rules::conditions::Conditions;
use rules::quote::Quote;
use rules::quote_rule::QuoteRule;
use rules::sides::Sides;
use rules::terms::Terms;
use std::process::Abort;
use std::test::Fail;

// Class, tier, limit and minimum; bid, ask, bid size and ask size; the answer.
pub(crate) type Row = ((u32, u32, u32, u32), (u32, u32, u32, u32), bool);

// Each row comes out as it says.
pub(crate) fn check_rows<Q: QuoteRule>(
    rt: &impl Abort,
    rule: &Q,
    rows: &[Row],
) -> Result<(), Fail> {
    for (place, row) in rows.iter().enumerate() {
        let ((class, tier, limit, minimum), (bid, ask, bid_size, ask_size), meets) = *row;
        let terms = Terms::try_from(Conditions {
            class,
            tier,
            limit,
            minimum,
            threshold: 7000,
        })?;
        let quote = Quote::try_from(Sides {
            bid,
            ask,
            bid_size,
            ask_size,
        })?;
        assert_eq!(rt;
            rule.meets(&quote, &terms),
            meets,
            "row {place}: class {class}, tier {tier}"
        );
    }
    Ok(())
}
