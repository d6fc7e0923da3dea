// One meter, asked by commands.
ghost use Rattle.std.specs.Prelude.{◌≡◌, IfOk};
ghost use Rattle.accounts.specs.Steps.{just_made};
ghost use Rattle.book.specs.View.{view};
ghost use Rattle.dialogue.specs.Answers.{answer_to, state_after};

use crate::answer::Answer;
use answers::answerer::Answerer;
use answers::fault::Fault;
use meter::meter::Meter;
use rules::month_rule::MonthRule;
use rules::quote_rule::QuoteRule;
use rules::rulebook::Rulebook;
use script::command::Command;
use std::alloc::{AllocError, Global};

#[derive(Drop)]
pub struct Console<Q, M> {
    meter: Meter<Q, M>,
}

impl<Q: QuoteRule + Drop, M: MonthRule + Drop> Console<Q, M> {
    // A console with a meter just made.
    pub fn new(heap: Global, rulebook: Rulebook<Q, M>) -> Result<Console<Q, M>, AllocError>
        ensures { IfOk result (λ k. (k.meter.rulebook ≡ rulebook) × (view k.meter.book ≡ just_made)) }
    {
        let meter = Meter::new(heap, rulebook)?;
        Ok(Console { meter })
    }
}

// What comes of a command, and the meter after it.
impl<Q: QuoteRule + Drop, M: MonthRule + Drop> Answerer for Console<Q, M> {
    type Question = Command;

    type Answer = Answer;

    ghost answers = { λ console command answer left.
        let state = view console.meter.book in
        let rulebook = console.meter.rulebook in
        (answer ≡ answer_to (M.MonthRule.verdict rulebook.month_rule) state command)
        × (view left.meter.book ≡ state_after (Q.QuoteRule.meets rulebook.quote_rule) state command)
        × (left.meter.rulebook ≡ rulebook) };

    fn answer(&mut self, command: &Command) -> Result<Answer, Fault> {
        Ok(match command {
            Command::Call(call) => {
                self.meter.apply(call)?;
                Answer::Accepted
            }
            Command::Figures(key) => Answer::Figures(self.meter.figures(key)?),
            Command::Statement(key) => Answer::Statement(self.meter.statement(key)?),
        })
    }
}
