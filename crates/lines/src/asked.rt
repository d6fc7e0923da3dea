// What a line asks for, one thing at most.
ghost use Rattle.std.specs.Prelude.{◌≡◌, ℕ, List, ◌∷◌, Result};
ghost use Rattle.lines.specs.declared.unreadable.Unreadable.{Unreadable};
ghost use Rattle.lines.specs.Asked.{asked_of};
ghost use Rattle.lines.specs.Words.{words_left};

use crate::unreadable::Unreadable;
use crate::words::Words;

pub trait Asked: Sized {
    // what the words of a line ask for
    ghost asked_by: { List (List ℕ) → Result Self Unreadable };

    // By the first word and those behind it.
    fn asked(first: &str, rest: Words) -> Result<Self, Unreadable>
        ensures { result ≡ asked_by (first.now ∷ words_left rest.entry) };

    // What the line asks for; a silent one asks for nothing.
    final fn read(line: &str) -> Result<Option<Self>, Unreadable>
        ensures { result ≡ asked_of asked_by line.now }
    {
        match Words::spoken(line) {
            Some((first, rest)) => Self::asked(first, rest).map(Some),
            None => Ok(None),
        }
    }
}
