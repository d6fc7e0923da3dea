// A day through the meter's calls: a maker that is obliged from 9:00 to 17:30 quotes from 9:30 to 15:30. And a list of calls
// with fewer and with more places for its answers.
use crate::number::number;
use calls::account_key::AccountKey;
use calls::call::Call;
use calls::date::Date;
use meter::meter::Meter;
use rules::conditions::Conditions;
use rules::ratio::Ratio;
use rules::refusal::Refusal;
use rules::rulebook::Rulebook;
use rules::sides::Sides;
use rules::verdict::Verdict;
use rules::vienna::Vienna;
use std::process::Abort;
use std::test::Fail;

pub(crate) const KEY: AccountKey = AccountKey {
    maker: 7,
    instrument: 12,
};

pub(crate) const BY_VIENNA: Rulebook<Vienna, Ratio> = Rulebook {
    quote_rule: Vienna,
    month_rule: Ratio,
};

// Class 3, relative, at least 300 pieces.
fn owing(threshold: u32) -> Conditions {
    Conditions {
        class: 3,
        tier: 0,
        limit: 1,
        minimum: 300,
        threshold,
    }
}

const QUOTED: Sides = Sides {
    bid: 100_000,
    ask: 101_000,
    bid_size: 300,
    ask_size: 300,
};

fn trade(meter: &mut Meter<Vienna, Ratio>, threshold: u32) -> Result<(), Refusal> {
    meter.enrol(KEY, owing(threshold))?;
    meter.open(Date {
        year: 2025,
        month: 3,
        day: 3,
    })?;
    meter.phase(12, 2, 32_400_000)?;
    meter.quote(KEY, 34_200_000, QUOTED)?;
    meter.withdraw(KEY, 55_800_000)?;
    meter.phase(12, 0, 63_000_000)?;
    meter.close(64_800_000)
}

// Of 30,600,000 milliseconds 21,600,000 are qualified, 7058.8 basis points.
fn check_day(
    rt: &(impl Abort + AllocGlobal),
    threshold: u32,
    kept_days: u32,
    verdict: Verdict,
) -> Result<(), Fail> {
    let mut meter = Meter::new(rt.alloc(), BY_VIENNA)?;
    trade(&mut meter, threshold)?;
    let statement = meter.statement(&KEY)?;
    let month = statement.figures.month;
    assert_eq!(rt; (month.obliged, month.qualified), (30_600_000, 21_600_000));
    assert_eq!(rt; (month.days, month.kept_days), (1, kept_days));
    assert_eq!(rt; statement.verdict, verdict);
    Ok(())
}

#[test]
fn three_thresholds(rt: HostRuntime) -> Result<(), Fail> {
    check_day(&rt, 7000, 1, Verdict::Kept)?;
    check_day(&rt, 7058, 1, Verdict::Kept)?;
    check_day(&rt, 7059, 0, Verdict::Breach)
}

// Two turns and a close without a day, run with fewer places than calls and with more. Places behind the calls stay.
#[test]
fn places_for_answers(rt: HostRuntime) -> Result<(), Fail> {
    let calls = [Call::Turn, Call::Close { stamp: 5 }, Call::Turn];
    let mut meter = Meter::new(rt.alloc(), BY_VIENNA)?;
    let mut two = [Err(Refusal::TableFull); 2];
    assert_eq!(rt; meter.run(&calls, &mut two), 2);
    assert_eq!(rt; (number(&two[0]), number(&two[1])), (0, 9));
    let mut four = [Err(Refusal::TableFull); 4];
    assert_eq!(rt; meter.run(&calls, &mut four), 3);
    assert_eq!(rt; (number(&four[0]), number(&four[1])), (0, 9));
    assert_eq!(rt; (number(&four[2]), number(&four[3])), (0, 13));
    Ok(())
}
