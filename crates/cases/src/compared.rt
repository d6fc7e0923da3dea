// Two runs side by side: a tighter copy of a day, and a day with the order of two calls of one stamp changed.
use crate::day::{BY_VIENNA, KEY};
use crate::number::number;
use calls::call::Call;
use calls::change::Change;
use calls::date::Date;
use laws::compare::{Compared, compare};
use laws::replay::Run;
use rules::conditions::Conditions;
use rules::ratio::Ratio;
use rules::sides::Sides;
use rules::verdict::Verdict;
use rules::vienna::Vienna;
use std::alloc::AllocError;
use std::process::Abort;
use std::test::Fail;

// Class 1, relative: 100,000/100,750 meets, 100,000/100,751 does not. Owes 7000 basis points.
const ENROLLED: Call = Call::Enrol {
    key: KEY,
    conditions: Conditions {
        class: 1,
        tier: 0,
        threshold: 7000,
        limit: 1,
        minimum: 1,
    },
};

const OPENED: Call = Call::Open {
    date: Date {
        year: 2025,
        month: 3,
        day: 3,
    },
};

fn quoted(stamp: u32, ask: u32) -> Call {
    Call::At {
        stamp,
        change: Change::Quote {
            key: KEY,
            sides: Sides {
                bid: 100_000,
                ask,
                bid_size: 1,
                ask_size: 1,
            },
        },
    }
}

fn phased(stamp: u32, phase: u32) -> Call {
    Call::At {
        stamp,
        change: Change::Phase {
            instrument: 12,
            phase,
        },
    }
}

fn compared(
    rt: &HostRuntime,
    first: &[Call],
    second: &[Call],
) -> Result<Compared<Vienna, Ratio>, AllocError> {
    compare(rt.alloc(), BY_VIENNA, BY_VIENNA, first, second)
}

// The calls were answered by these numbers, 0 for accepted, and the month has 1000 milliseconds obliged and these qualified.
fn check_run(
    rt: &impl Abort,
    which: &str,
    run: &Run<Vienna, Ratio>,
    numbers: &[u8],
    qualified: u32,
    verdict: Verdict,
) -> Result<(), Fail> {
    assert_eq!(rt; run.answers.len(), numbers.len(), "{which}");
    for (answer, expected) in run.answers.iter().zip(numbers.iter()) {
        assert_eq!(rt; number(answer), *expected, "{which}");
    }
    let statement = run.meter.statement(&KEY)?;
    assert_eq!(rt; statement.figures.month.obliged, 1000, "{which}");
    assert_eq!(rt; statement.figures.month.qualified, qualified, "{which}");
    assert_eq!(rt; statement.verdict, verdict, "{which}");
    Ok(())
}

// Too wide until 400, then in time for 600 of 1000 only; the copy is tight from the start.
#[test]
fn tighter_copy(rt: HostRuntime) -> Result<(), Fail> {
    let close = Call::Close { stamp: 1000 };
    let first = [
        ENROLLED,
        OPENED,
        phased(0, 2),
        quoted(0, 100_751),
        quoted(400, 100_750),
        close,
    ];
    let second = [
        ENROLLED,
        OPENED,
        phased(0, 2),
        quoted(0, 100_750),
        quoted(400, 100_749),
        close,
    ];
    let both = compared(&rt, &first, &second)?;
    check_run(
        &rt,
        "first",
        &both.first,
        &[0, 0, 0, 0, 0, 0],
        600,
        Verdict::Breach,
    )?;
    check_run(
        &rt,
        "second",
        &both.second,
        &[0, 0, 0, 0, 0, 0],
        1000,
        Verdict::Kept,
    )
}

// The quote before the phase of its stamp or behind it; at 800 a refused phase before the withdrawal or behind it.
#[test]
fn exchanged_pairs(rt: HostRuntime) -> Result<(), Fail> {
    let withdrawn = Call::At {
        stamp: 800,
        change: Change::Withdraw { key: KEY },
    };
    let close = Call::Close { stamp: 1100 };
    let first = [
        ENROLLED,
        OPENED,
        phased(100, 2),
        quoted(100, 100_750),
        phased(800, 4),
        withdrawn,
        close,
    ];
    let second = [
        ENROLLED,
        OPENED,
        quoted(100, 100_750),
        phased(100, 2),
        withdrawn,
        phased(800, 4),
        close,
    ];
    let both = compared(&rt, &first, &second)?;
    check_run(
        &rt,
        "first",
        &both.first,
        &[0, 0, 0, 0, 4, 0, 0],
        700,
        Verdict::Kept,
    )?;
    check_run(
        &rt,
        "second",
        &both.second,
        &[0, 0, 0, 0, 0, 4, 0],
        700,
        Verdict::Kept,
    )
}
