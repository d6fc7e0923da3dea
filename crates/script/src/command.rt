// What a line asks of a meter.
ghost use Rattle.std.specs.Prelude.{◌≡◌};
ghost use Rattle.lines.specs.Words.{words_left};
ghost use Rattle.script.specs.Commands.{asked_by, by_verb};

use crate::verb::Verb;
use calls::account_key::AccountKey;
use calls::call::Call;
use lines::asked::Asked;
use lines::unreadable::Unreadable;
use lines::words::Words;

mod build;

#[derive(Clone, Copy, PartialEq, Eq)]
pub enum Command {
    Call(Call),
    Figures(AccountKey),
    Statement(AccountKey),
}

impl Asked for Command {
    ghost asked_by = { asked_by };

    fn asked(first: &str, rest: Words) -> Result<Self, Unreadable> {
        Command::by_verb(first.parse()?, rest)
    }
}

impl Command {
    fn by_verb(verb: Verb, rest: Words) -> Result<Command, Unreadable>
        ensures { result ≡ by_verb verb (words_left rest.entry) }
    {
        Ok(match verb {
            Verb::Enrol => Command::enrol(rest.numbers()?),
            Verb::Strike => Command::strike(rest.numbers()?),
            Verb::Open => Command::open(rest.numbers()?),
            Verb::Phase => Command::phase(rest.numbers()?),
            Verb::Fast => Command::fast(rest.numbers()?),
            Verb::Exempt => Command::exempt(rest.numbers()?),
            Verb::Quote => Command::quote(rest.numbers()?),
            Verb::Withdraw => Command::withdraw(rest.numbers()?),
            Verb::Close => Command::close(rest.numbers()?),
            Verb::Turn => Command::turn(rest.numbers()?),
            Verb::Figures => Command::figures(rest.numbers()?),
            Verb::Statement => Command::statement(rest.numbers()?),
        })
    }
}
