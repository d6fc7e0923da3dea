// What a meter tells of an account: its figures of today and of the month.
ghost use Rattle.std.specs.Prelude.{Some};
ghost use Rattle.accounts.specs.Texts.{figures_text};

use crate::day_figures::DayFigures;
use rules::month_figures::MonthFigures;
use std::fmt;

#[derive(Clone, Copy)]
pub struct Figures {
    pub today: DayFigures,
    pub month: MonthFigures,
}

impl fmt::Display for Figures {
    ghost output = { λ figures. Some (figures_text figures) };

    fn fmt<W: fmt::Write>(&self, f: &mut fmt::Formatter<W>) -> fmt::Result {
        let Figures { today, month } = *self;
        write!(
            f,
            "today {} {} month {} {} {} {}",
            today.obliged,
            today.qualified,
            month.obliged,
            month.qualified,
            month.days,
            month.kept_days
        )
    }
}
