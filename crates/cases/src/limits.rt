// Which numbers make a quote and terms, and with which number the others are refused.
use crate::number::number;
use rules::conditions::Conditions;
use rules::quote::Quote;
use rules::sides::Sides;
use rules::terms::Terms;

fn sides(bid: u32, ask: u32, bid_size: u32, ask_size: u32) -> Sides {
    Sides {
        bid,
        ask,
        bid_size,
        ask_size,
    }
}

#[test]
fn quotes(rt: HostRuntime) {
    let cases = [
        (sides(1, 2, 1, 1), 0),
        (sides(999_999_999, 1_000_000_000, 10_000_000, 10_000_000), 0),
        (sides(0, 2, 1, 1), 5),
        (sides(1, 1_000_000_001, 1, 1), 5),
        (sides(1, 2, 0, 1), 5),
        (sides(1, 2, 1, 0), 5),
        (sides(1, 2, 10_000_001, 1), 5),
        (sides(1, 2, 1, 10_000_001), 5),
        (sides(2, 2, 1, 1), 6),
        (sides(3, 2, 1, 1), 6),
        (sides(1_000_000_000, 1_000_000_000, 1, 1), 6),
        // the limits are asked first
        (sides(1_000_000_001, 2, 1, 1), 5),
        (sides(3, 2, 0, 1), 5),
        (sides(1, 0, 1, 1), 5),
    ];
    for (place, case) in cases.iter().enumerate() {
        assert_eq!(rt; number(&Quote::try_from(case.0)), case.1, "quote {place}");
    }
}

#[test]
fn terms(rt: HostRuntime) {
    let low = Conditions {
        class: 1,
        tier: 0,
        limit: 1,
        minimum: 1,
        threshold: 1,
    };
    let high = Conditions {
        class: 7,
        tier: 2,
        limit: 10_000,
        minimum: 4_000_000_000,
        threshold: 10_000,
    };
    let cases = [
        (low, 0),
        (high, 0),
        (Conditions { class: 0, ..low }, 4),
        (Conditions { class: 8, ..high }, 4),
        // what would wrap round in fewer bits
        (Conditions { class: 257, ..low }, 4),
        (
            Conditions {
                limit: 65_537,
                ..low
            },
            4,
        ),
        (
            Conditions {
                threshold: 65_537,
                ..low
            },
            4,
        ),
        (Conditions { tier: 3, ..high }, 4),
        (Conditions { limit: 0, ..low }, 4),
        (
            Conditions {
                limit: 10_001,
                ..high
            },
            4,
        ),
        (Conditions { minimum: 0, ..low }, 4),
        (
            Conditions {
                minimum: 4_000_000_001,
                ..high
            },
            4,
        ),
        (
            Conditions {
                threshold: 0,
                ..low
            },
            4,
        ),
        (
            Conditions {
                threshold: 10_001,
                ..high
            },
            4,
        ),
    ];
    for (place, case) in cases.iter().enumerate() {
        assert_eq!(rt; number(&Terms::try_from(case.0)), case.1, "terms {place}");
    }
}
