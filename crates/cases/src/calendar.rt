// The dates of 400 years, by a count of days that knows no table of months.
use calls::date::Date;

// The place of a date among all days. Years are counted from March, so that a leap day is a year's last: the months from
// there have 31, 30, 31, 30, 31, 31, 30, 31, 30, 31, 31 days and the rest, which are the steps of (153 × months + 2) / 5.
// 400 years are added, so that nothing falls below 0.
fn day_number(year: u32, month: u32, day: u32) -> u64 {
    let years = year as u64 + if month < 3 { 399 } else { 400 };
    let months = (month as u64 + 9) % 12;
    years * 365 + years / 4 - years / 100 + years / 400 + (months * 153 + 2) / 5 + day as u64
}

fn date(year: u32, month: u32, day: u32) -> Date {
    Date { year, month, day }
}

// Of all triples in order, those that are dates follow each other day by day, from 1 January 2000 to 31 December 2399.
#[test]
fn day_by_day(rt: HostRuntime) {
    let mut last = date(1999, 12, 31);
    let mut number = day_number(1999, 12, 31);
    let mut dates = 0u32;
    let mut friday_thirteenths = 0u32;
    for year in 2000..2400 {
        for month in 0..14 {
            for day in 0..33 {
                let next = date(year, month, day);
                if next.exists() {
                    number = number.saturating_add(1);
                    assert_eq!(rt;
                        day_number(year, month, day),
                        number,
                        "{year} {month} {day}"
                    );
                    assert!(rt; next > last && !(last > next), "{year} {month} {day}");
                    last = next;
                    dates = dates.saturating_add(1);
                    // 1 January 2000 is a Saturday, so that of every seven dates the last is a Friday
                    if day == 13 && dates % 7 == 0 {
                        friday_thirteenths = friday_thirteenths.saturating_add(1);
                    }
                }
            }
        }
    }
    assert_eq!(rt; dates, 146_097);
    assert_eq!(rt; number, day_number(2399, 12, 31));
    assert_eq!(rt; friday_thirteenths, 688);
    // the first and the last year
    assert!(rt; !date(0, 12, 31).exists());
    assert!(rt; date(1, 1, 1).exists());
    assert!(rt; date(9999, 12, 31).exists());
    assert!(rt; !date(10_000, 1, 1).exists());
}
