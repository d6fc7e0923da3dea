// Verdicts on a month.
use rules::majority::Majority;
use rules::month_figures::MonthFigures;
use rules::month_rule::MonthRule;
use rules::ratio::Ratio;
use rules::verdict::Verdict;

#[test]
fn ratios(rt: HostRuntime) {
    let month = MonthFigures {
        obliged: 30_600_000,
        qualified: 21_600_000,
        days: 1,
        kept_days: 1,
    };
    assert_eq!(rt; Ratio.verdict(&month, 7000), Verdict::Kept);
    assert_eq!(rt; Ratio.verdict(&month, 7058), Verdict::Kept);
    assert_eq!(rt; Ratio.verdict(&month, 7059), Verdict::Breach);
    // exactly the threshold's share is kept, and the largest figures do not overrun
    let exact = MonthFigures {
        obliged: 10_000,
        qualified: 7_000,
        days: 1,
        kept_days: 0,
    };
    assert_eq!(rt; Ratio.verdict(&exact, 7000), Verdict::Kept);
    let largest = MonthFigures {
        obliged: u32::MAX,
        qualified: u32::MAX,
        days: 31,
        kept_days: 31,
    };
    assert_eq!(rt; Ratio.verdict(&largest, 10_000), Verdict::Kept);
    assert_eq!(rt; Ratio.verdict(&largest, 10_001), Verdict::Breach);
    // nothing was owed
    let idle = MonthFigures {
        obliged: 0,
        qualified: 0,
        days: 5,
        kept_days: 0,
    };
    assert_eq!(rt; Ratio.verdict(&idle, 10_000), Verdict::Kept);
}

#[test]
fn majorities(rt: HostRuntime) {
    let cases = [
        (3, 5, Verdict::Kept),
        (2, 4, Verdict::Breach),
        (0, 0, Verdict::Breach),
        (1, 1, Verdict::Kept),
        (15, 31, Verdict::Breach),
        (16, 31, Verdict::Kept),
        (u32::MAX, u32::MAX, Verdict::Kept),
        (2_147_483_647, u32::MAX, Verdict::Breach),
        (2_147_483_648, u32::MAX, Verdict::Kept),
    ];
    for (kept_days, days, verdict) in cases {
        let month = MonthFigures {
            obliged: 0,
            qualified: 0,
            days,
            kept_days,
        };
        assert_eq!(rt;
            Majority.verdict(&month, 10_000),
            verdict,
            "{kept_days} of {days}"
        );
    }
}
