// What a meter answers to a command.
ghost use Rattle.std.specs.Prelude.{Some};
ghost use Rattle.dialogue.specs.Texts.{answer_text};

use accounts::figures::Figures;
use accounts::statement::Statement;
use std::fmt;

#[derive(Clone, Copy)]
pub enum Answer {
    Accepted,
    Figures(Figures),
    Statement(Statement),
}

impl fmt::Display for Answer {
    ghost output = { λ answer. Some (answer_text answer) };

    fn fmt<W: fmt::Write>(&self, f: &mut fmt::Formatter<W>) -> fmt::Result {
        match self {
            Answer::Accepted => f.write_str("accepted"),
            Answer::Figures(figures) => figures.fmt(f),
            Answer::Statement(statement) => statement.fmt(f),
        }
    }
}
