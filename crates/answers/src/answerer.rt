// Who answers what lines ask for.
ghost use Rattle.std.specs.Prelude.{◌≡◌, Result};
ghost use Rattle.lines.specs.Asked.{asked_of};
ghost use Rattle.answers.specs.declared.fault.Fault.{Fault};
ghost use Rattle.answers.specs.Lines.{LineAnswered};

use crate::fault::Fault;
use lines::asked::Asked;
use std::fmt;

pub trait Answerer {
    type Question: Asked + Drop;

    type Answer: fmt::Display + Drop;

    // what comes of a question: who is asked, the question, the answer, who has answered
    ghost answers: { Self → Self.Question → Result Self.Answer Fault → Self → Type 0 };

    fn answer(&mut self, question: &Self::Question) -> Result<Self::Answer, Fault>
        ensures { answers self.old question.now result self.new };

    // What comes of a line; nothing comes of a silent one.
    final fn answer_line(&mut self, line: &str) -> Result<Option<Self::Answer>, Fault>
        ensures { LineAnswered answers (asked_of Self.Question.asked_by line.now) self.old result self.new }
    {
        match Self::Question::read(line)? {
            Some(question) => Ok(Some(self.answer(&question)?)),
            None => Ok(None),
        }
    }
}
