// An account's figures over a month: times in milliseconds, and days.
#[derive(Clone, Copy, Default)]
pub struct MonthFigures {
    pub obliged: u32,
    pub qualified: u32,
    pub days: u32,
    pub kept_days: u32,
}
