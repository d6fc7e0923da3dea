// console RULE: drives one meter by calls written as lines of text, and prints each line with its answer.
#![tactic(auto)]

use answers::input::answer_input;
use dialogue::console::Console;
use exchanges::by_rules::ByRules;
use exchanges::program::run_program;
use rules::month_rule::MonthRule;
use rules::quote_rule::QuoteRule;
use rules::rulebook::Rulebook;
use std::io;
use std::process::ExitCode;

fn main(rt: HostRuntime) -> ExitCode {
    run_program(
        &rt,
        "console",
        "with calls on standard input, one to a line",
        AnswerCalls,
    )
}

// Answers all lines of standard input by one meter.
#[derive(Clone, Copy)]
struct AnswerCalls;

impl ByRules for AnswerCalls {
    type Outcome = io::Result<()>;

    ghost comes = { λ _ _ _ _ _. Unit {0} };

    fn by_rules<Q: QuoteRule + Copy + Drop, M: MonthRule + Copy + Drop>(
        self,
        rt: &HostRuntime,
        rulebook: Rulebook<Q, M>,
    ) -> io::Result<()> {
        let mut console = Console::new(rt.alloc(), rulebook)?;
        answer_input(rt, &mut console)
    }
}
