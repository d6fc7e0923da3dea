// quotecheck RULE: judges quotes, line by line, by the rule of one exchange.
#![tactic(auto)]

use answers::input::answer_input;
use desk::desk::Desk;
use exchanges::by_rules::ByRules;
use exchanges::program::run_program;
use rules::month_rule::MonthRule;
use rules::quote_rule::QuoteRule;
use rules::rulebook::Rulebook;
use rules::statements::{better_reads_plainly, edges_hold};
use std::io;
use std::process::ExitCode;

fn main(rt: HostRuntime) -> ExitCode {
    run_program(
        &rt,
        "quotecheck",
        "with terms and quotes on standard input",
        JudgeQuotes,
    )
}

// Judges all lines of standard input at one desk, and prints how many quotes were judged.
#[derive(Clone, Copy)]
struct JudgeQuotes;

impl ByRules for JudgeQuotes {
    type Outcome = io::Result<()>;

    ghost comes = { λ _ _ _ _ _. Unit {0} };

    fn by_rules<Q: QuoteRule + Copy + Drop, M: MonthRule + Copy + Drop>(
        self,
        rt: &HostRuntime,
        rulebook: Rulebook<Q, M>,
    ) -> io::Result<()> {
        // what is proved of the rules as they are written; at run time the two do nothing
        edges_hold();
        better_reads_plainly();
        let mut desk = Desk::new(rulebook.quote_rule);
        answer_input(rt, &mut desk)?;
        rt.println(desk.tally())
    }
}
