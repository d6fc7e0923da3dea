// The first word of a line: which call it is.
ghost use Rattle.std.specs.Prelude.{◌≡◌};
ghost use Rattle.std.specs.Option.{ok_or};
ghost use Rattle.lines.specs.Unreadables.{unreadable};
ghost use Rattle.script.specs.Verbs.{verb_named};

use lines::unreadable::Unreadable;
use std::str::FromStr;

#[derive(Clone, Copy, PartialEq, Eq, Debug)]
pub enum Verb {
    Enrol,
    Strike,
    Open,
    Phase,
    Fast,
    Exempt,
    Quote,
    Withdraw,
    Close,
    Turn,
    Figures,
    Statement,
}

impl FromStr for Verb {
    type Err = Unreadable;

    ghost from_str_gives = { λ word r. r ≡ ok_or (verb_named word) unreadable };

    fn from_str(word: &str) -> Result<Self, Unreadable> {
        match word {
            "enrol" => Ok(Verb::Enrol),
            "strike" => Ok(Verb::Strike),
            "open" => Ok(Verb::Open),
            "phase" => Ok(Verb::Phase),
            "fast" => Ok(Verb::Fast),
            "exempt" => Ok(Verb::Exempt),
            "quote" => Ok(Verb::Quote),
            "withdraw" => Ok(Verb::Withdraw),
            "close" => Ok(Verb::Close),
            "turn" => Ok(Verb::Turn),
            "figures" => Ok(Verb::Figures),
            "statement" => Ok(Verb::Statement),
            _ => Err(Unreadable),
        }
    }
}
