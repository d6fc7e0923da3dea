// The accounts with the day and the month that they are counted in.
ghost use Rattle.std.specs.Prelude.{◌≡◌, ◌≤◌, true, All};
ghost use Rattle.accounts.specs.Bounds.{DayBounds, MonthBounds, reach};

use accounts::market::Market;
use accounts::table::Table;
use calls::date::Date;

mod checks;
mod setters;
mod tell;

// The clock is the last accepted stamp of the day; `closed` counts the days closed since the last turn. The bounds keep every
// figure within its type, however long the book is kept.
// `day_open` and `clock` are no `Option`: the clock outlives its day, so an enum would hold it in both of its variants. Contracts
// read a book by a function (`view`) and not by a model, which would hide what a refused call leaves besides.
#[derive(Drop)]
pub struct Book {
    table: Table,
    market: Market,
    day_open: bool,
    clock: u32,
    last: Option<Date>,
    closed: u32,
    ghost today: { All (DayBounds (reach day_open clock)) table.accounts.items },
    ghost month: { All (MonthBounds closed) table.accounts.items },
    ghost day: { clock ≤ 86_400_000 },
    ghost days: { closed ≤ 31 },
    ghost room: { day_open ≡ true → closed ≤ 30 },
}
