// Work with what keeps it from being done said on standard error.
use crate::by_rules::ByRules;
use rules::month_rule::MonthRule;
use rules::quote_rule::QuoteRule;
use rules::rulebook::Rulebook;
use std::fmt;

#[derive(Drop)]
pub(crate) struct Told<'a, W> {
    pub(crate) name: &'a str,
    pub(crate) work: W,
}

impl<'a, E: fmt::Display + Drop, W: ByRules<Outcome = Result<(), E>>> ByRules for Told<'a, W> {
    type Outcome = Result<(), E>;

    ghost comes = { λ told. W.comes told.work };

    fn by_rules<Q: QuoteRule + Copy + Drop, M: MonthRule + Copy + Drop>(
        self,
        rt: &HostRuntime,
        rulebook: Rulebook<Q, M>,
    ) -> Result<(), E> {
        let name = self.name;
        let done = self.work.by_rules(rt, rulebook);
        if let Err(e) = &done {
            let _ = eprintln!(rt; "{name}: {e}");
        }
        done
    }
}
