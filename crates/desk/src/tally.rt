// How many quotes were judged, and how. A count that is full stays full.
ghost use Rattle.std.specs.Prelude.{◌≡◌, Some};
ghost use Rattle.desk.specs.Answers.{tallied};
ghost use Rattle.desk.specs.Tallies.{none_judged, judged_in, tally_text};

use crate::answer::Answer;
use answers::fault::Fault;
use std::fmt;

#[derive(Clone, Copy)]
pub struct Tally {
    meet: u64,
    do_not_meet: u64,
}

impl Tally {
    pub fn new() -> Tally
        ensures { result ≡ none_judged }
    {
        Tally {
            meet: 0,
            do_not_meet: 0,
        }
    }

    // All quotes judged.
    pub fn judged(&self) -> u64
        ensures { result ≡ judged_in self.now }
    {
        self.meet.saturating_add(self.do_not_meet)
    }

    // One answer more: only a judged quote counts.
    pub fn count(&mut self, answer: &Result<Answer, Fault>)
        ensures { self.new ≡ tallied self.old answer.now }
    {
        match answer {
            Ok(Answer::Meets) => self.meet = self.meet.saturating_add(1),
            Ok(Answer::DoesNotMeet) => self.do_not_meet = self.do_not_meet.saturating_add(1),
            Ok(Answer::Accepted) | Err(_) => {}
        }
    }
}

impl fmt::Display for Tally {
    ghost output = { λ tally. Some (tally_text tally) };

    fn fmt<W: fmt::Write>(&self, f: &mut fmt::Formatter<W>) -> fmt::Result {
        write!(
            f,
            "quotes judged: {}, meet: {}, do not meet: {}",
            self.judged(),
            self.meet,
            self.do_not_meet
        )
    }
}
