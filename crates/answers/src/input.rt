// All of standard input answered, line by line.
ghost use Rattle.std.specs.Prelude.{◌≡◌, ℕ, List, Option, Result};
ghost use Rattle.answers.specs.declared.fault.Fault.{Fault};
ghost use Rattle.answers.specs.Input.{OnlyAnswers};
ghost use Rattle.answers.specs.Lines.{LineAnswered};
ghost use Rattle.lines.specs.Asked.{asked_of};

use crate::answered::Answered;
use crate::answerer::Answerer;
use lines::line_end::strip_return;
use std::io;
use std::io::{BufRead, BufReader};

// Prints each line of standard input with what comes of it. Bytes that are no text are shown by a mark.
pub fn answer_input<A: Answerer>(rt: &HostRuntime, asked: &mut A) -> io::Result<()>
    ensures { OnlyAnswers (λ s text t. (r : Result (Option A.Answer) Fault) × LineAnswered A.answers (asked_of A.Question.asked_by text) s r t) asked.old asked.new }
{
    for line in BufReader::new(rt.alloc(), rt.stdin())?.split(rt.alloc(), b'\n') {
        let text = String::from_utf8_lossy(rt.alloc(), &line?)?;
        print_answer(rt, asked, strip_return(text.as_str()))?;
    }
    Ok(())
}

fn print_answer<A: Answerer>(rt: &HostRuntime, asked: &mut A, line: &str) -> io::Result<()>
    ensures { (r : Result (Option A.Answer) Fault) × LineAnswered A.answers (asked_of A.Question.asked_by line.now) asked.old r asked.new }
{
    match asked.answer_line(line) {
        Ok(Some(reply)) => rt.println(Answered { line, reply }),
        Ok(None) => Ok(()),
        Err(reply) => rt.println(Answered { line, reply }),
    }
}
