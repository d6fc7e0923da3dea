// An account's figures of the open day: times in milliseconds.
#[derive(Clone, Copy, Default)]
pub struct DayFigures {
    pub obliged: u32,
    pub qualified: u32,
}
