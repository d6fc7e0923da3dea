// Vienna's tables from a second listing, class by class, in hundredths of a per cent and in cents.
use crate::table::check_rows;
use rules::vienna::Vienna;
use std::process::Abort;
use std::test::Fail;

// The class, and its widest spread: relative, stagnating, fixed.
const ROWS: [(u32, u16, u8, u8); 7] = [
    (1, 75, 8, 8),
    (2, 100, 10, 10),
    (3, 150, 10, 10),
    (4, 200, 10, 10),
    (5, 300, 15, 10),
    (6, 400, 20, 10),
    (7, 500, 25, 10),
];

// At a bid of 100 euro the spread meets the terms of the class and the tier, and one ten-thousandth more does not.
fn check_widest(rt: &impl Abort, class: u32, tier: u32, widest: u32) -> Result<(), Fail> {
    let given = (class, tier, 1, 1);
    let ask = 1_000_000u32.saturating_add(widest);
    let at = (given, (1_000_000, ask, 1, 1), true);
    let over = (given, (1_000_000, ask.saturating_add(1), 1, 1), false);
    check_rows(rt, &Vienna, &[at, over])
}

#[test]
fn every_entry(rt: HostRuntime) -> Result<(), Fail> {
    for (class, relative, stagnating, fixed) in ROWS {
        check_widest(&rt, class, 0, relative as u32 * 100)?;
        check_widest(&rt, class, 1, stagnating as u32 * 100)?;
        check_widest(&rt, class, 2, fixed as u32 * 100)?;
    }
    Ok(())
}
