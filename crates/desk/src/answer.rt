// What the desk answers.
ghost use Rattle.std.specs.Prelude.{Some};
ghost use Rattle.desk.specs.Answers.{answer_text};

use std::fmt;

#[derive(Clone, Copy, PartialEq, Eq, Debug)]
pub enum Answer {
    Accepted,
    Meets,
    DoesNotMeet,
}

impl fmt::Display for Answer {
    ghost output = { λ answer. Some (answer_text answer) };

    fn fmt<W: fmt::Write>(&self, f: &mut fmt::Formatter<W>) -> fmt::Result {
        f.write_str(match self {
            Answer::Accepted => "accepted",
            Answer::Meets => "meets",
            Answer::DoesNotMeet => "does not meet",
        })
    }
}
