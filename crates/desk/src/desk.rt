// The desk: one quote rule, and the terms that stand.
ghost use Rattle.std.specs.Prelude.{◌≡◌, None};
ghost use Rattle.rules.specs.Terms.{terms_of};
ghost use Rattle.rules.specs.Quotes.{quote_of};
ghost use Rattle.desk.specs.Answers.{terms_answer, replaced, quote_answer, answer_to, standing_after, tallied, BetterKeepsMeeting};
ghost use Rattle.desk.specs.Tallies.{none_judged};

use crate::answer::Answer;
use crate::request::Request;
use crate::tally::Tally;
use answers::answerer::Answerer;
use answers::fault::Fault;
use rules::conditions::Conditions;
use rules::quote::Quote;
use rules::quote_rule::QuoteRule;
use rules::sides::Sides;
use rules::terms::Terms;

#[derive(Drop)]
pub struct Desk<Q> {
    rule: Q,
    standing: Option<Terms>,
    tally: Tally,
}

// Whatever terms stand, a quote that is better than one that meets them is told that it meets them too.
fn better_keeps_meeting<Q: QuoteRule>(rule: &Q)
    ensures { BetterKeepsMeeting (Q.QuoteRule.better rule.now) (Q.QuoteRule.meets rule.now) }
{}

impl<Q: QuoteRule + Drop> Desk<Q> {
    // A desk with no terms yet.
    pub fn new(rule: Q) -> Desk<Q>
        ensures rule { result.rule ≡ rule }
        ensures standing { result.standing ≡ None }
        ensures tally { result.tally ≡ none_judged }
        ensures better { BetterKeepsMeeting (Q.QuoteRule.better rule) (Q.QuoteRule.meets rule) }
    {
        better_keeps_meeting(&rule);
        Desk {
            rule,
            standing: None,
            tally: Tally::new(),
        }
    }

    pub fn tally(&self) -> Tally
        ensures { result ≡ self.now.tally }
    {
        self.tally
    }

    // Sets the terms, where they are lawful.
    fn agree(&mut self, given: Conditions) -> Result<Answer, Fault>
        ensures answer { result ≡ terms_answer (terms_of given) }
        ensures standing { self.new.standing ≡ replaced self.old.standing (terms_of given) }
        ensures tally { self.new.tally ≡ self.old.tally }
        ensures rule { self.new.rule ≡ self.old.rule }
    {
        let terms = Terms::try_from(given)?;
        self.standing = Some(terms);
        Ok(Answer::Accepted)
    }

    // Holds a quote against the terms that stand.
    fn judge(&self, sides: Sides) -> Result<Answer, Fault>
        ensures { result ≡ quote_answer (Q.QuoteRule.meets self.now.rule) self.now.standing (quote_of sides) }
    {
        let terms = self.standing.ok_or(Fault::Unreadable)?;
        let quote = Quote::try_from(sides)?;
        Ok(if self.rule.meets(&quote, &terms) {
            Answer::Meets
        } else {
            Answer::DoesNotMeet
        })
    }
}

// What comes of a request, and the desk after it. Terms that are refused leave those that stand.
impl<Q: QuoteRule + Drop> Answerer for Desk<Q> {
    type Question = Request;

    type Answer = Answer;

    ghost answers = { λ desk request answer left.
        (answer ≡ answer_to (Q.QuoteRule.meets desk.rule) desk.standing request)
        × (left.standing ≡ standing_after desk.standing request)
        × (left.tally ≡ tallied desk.tally answer)
        × (left.rule ≡ desk.rule) };

    fn answer(&mut self, request: &Request) -> Result<Answer, Fault> {
        let answer = match *request {
            Request::Terms(given) => self.agree(given),
            Request::Quote(sides) => self.judge(sides),
        };
        self.tally.count(&answer);
        answer
    }
}
