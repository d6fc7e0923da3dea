// Why a call is refused.
ghost use Rattle.std.specs.Prelude.{◌≡◌, Some};
ghost use Rattle.rules.specs.Refusals.{refusal_number, refusal_text};

use std::error::Error;
use std::fmt;

#[derive(Clone, Copy, PartialEq, Eq, Debug)]
pub enum Refusal {
    FieldOutOfRange,
    QuoteOutOfLimits,
    BidNotBelowAsk,
    NoSuchDate,
    DayOpen,
    NoDayOpen,
    StampBelowClock,
    NotEnrolled,
    EnrolledAlready,
    TableFull,
    DateNotAfterLast,
    DaysUnturned,
    MonthFull,
    NoObligedTime,
}

impl Refusal {
    // The number by which a refusal is told.
    pub fn number(&self) -> u8
        ensures { result ≡ refusal_number self.now }
    {
        match self {
            Refusal::FieldOutOfRange => 4,
            Refusal::QuoteOutOfLimits => 5,
            Refusal::BidNotBelowAsk => 6,
            Refusal::NoSuchDate => 7,
            Refusal::DayOpen => 8,
            Refusal::NoDayOpen => 9,
            Refusal::StampBelowClock => 10,
            Refusal::NotEnrolled => 11,
            Refusal::EnrolledAlready => 12,
            Refusal::TableFull => 13,
            Refusal::DateNotAfterLast => 14,
            Refusal::DaysUnturned => 15,
            Refusal::MonthFull => 16,
            Refusal::NoObligedTime => 17,
        }
    }
}

impl fmt::Display for Refusal {
    ghost output = { λ refusal. Some (refusal_text refusal) };

    fn fmt<W: fmt::Write>(&self, f: &mut fmt::Formatter<W>) -> fmt::Result {
        write!(f, "refused {}", self.number())
    }
}

impl Error for Refusal {}
