// The number of every refusal, from a second listing.
use rules::refusal::Refusal;

#[test]
fn every_refusal(rt: HostRuntime) {
    let numbers = [
        // fields
        (Refusal::FieldOutOfRange, 4),
        (Refusal::QuoteOutOfLimits, 5),
        (Refusal::BidNotBelowAsk, 6),
        (Refusal::NoSuchDate, 7),
        // the day
        (Refusal::DayOpen, 8),
        (Refusal::NoDayOpen, 9),
        (Refusal::StampBelowClock, 10),
        // the table
        (Refusal::NotEnrolled, 11),
        (Refusal::EnrolledAlready, 12),
        (Refusal::TableFull, 13),
        // the month
        (Refusal::DateNotAfterLast, 14),
        (Refusal::DaysUnturned, 15),
        (Refusal::MonthFull, 16),
        (Refusal::NoObligedTime, 17),
    ];
    for (refusal, number) in numbers {
        assert_eq!(rt; refusal.number(), number);
    }
}
