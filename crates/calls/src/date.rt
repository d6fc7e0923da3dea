// A date of the Gregorian calendar, as given.
ghost use Rattle.std.specs.Prelude.{◌≡◌};
ghost use Rattle.calls.specs.Calendar.{leap, month_length, is_date, same_month};

use rules::ranges::within;

#[derive(Clone, Copy, PartialEq, Eq, PartialOrd, Ord)]
pub struct Date {
    pub year: u32,
    pub month: u32,
    pub day: u32,
}

fn is_leap(year: u32) -> bool
    ensures { result ≡ leap year }
{
    year % 4 == 0 && (year % 100 != 0 || year % 400 == 0)
}

fn days_in(year: u32, month: u32) -> u32
    ensures { result ≡ month_length year month }
{
    match month {
        2 => if is_leap(year) { 29 } else { 28 },
        4 | 6 | 9 | 11 => 30,
        _ => 31,
    }
}

impl Date {
    // Whether the calendar has this date, in the years 1 to 9999.
    pub fn exists(&self) -> bool
        ensures { result ≡ is_date self.now }
    {
        within(1, 9999, self.year)
            && within(1, 12, self.month)
            && within(1, days_in(self.year, self.month), self.day)
    }

    pub fn is_same_month(&self, other: &Date) -> bool
        ensures { result ≡ same_month self.now other.now }
    {
        self.year == other.year && self.month == other.month
    }
}
