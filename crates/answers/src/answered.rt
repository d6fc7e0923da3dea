// A line with what came of it, as it is printed.
ghost use Rattle.std.specs.Option.{option_map};
ghost use Rattle.answers.specs.Answered.{answer_text};

use std::fmt;

#[derive(Clone, Copy, Drop)]
pub struct Answered<'a, R> {
    pub line: &'a str,
    pub reply: R,
}

impl<'a, R: fmt::Display> fmt::Display for Answered<'a, R> {
    ghost output = { λ a. option_map (answer_text a.line.now) (R.Display.output a.reply) };

    fn fmt<W: fmt::Write>(&self, f: &mut fmt::Formatter<W>) -> fmt::Result {
        let line = self.line;
        let reply = &self.reply;
        write!(f, "{line} => {reply}")
    }
}
