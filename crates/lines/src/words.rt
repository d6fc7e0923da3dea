// The words of a line, parted by single spaces, one after the other.
ghost use Rattle.std.specs.Prelude.{◌≡◌, true, false, ◌∷◌, MatchOption, length};
ghost use Rattle.std.specs.Option.{ok_or};
ghost use Rattle.std.specs.Iterator.{at_most};
ghost use Rattle.lines.specs.Numbers.{numbers_of, exactly};
ghost use Rattle.lines.specs.Unreadables.{unreadable};
ghost use Rattle.lines.specs.Words.{silent, words, first, of_rest, words_left, NextWord};

use crate::number::read_number;
use crate::unreadable::Unreadable;

// Copy, which a caller may use: so it is cut by `split_once` and not by `split`, whose iterator is not, and contracts read what
// is left by a function (`words_left`), since a model of what is Copy needs an inverse, and this has none.
#[derive(Clone, Copy)]
pub struct Words<'a> {
    rest: Option<&'a str>,
}

// The first word of a text, and what stands behind its space.
fn cut<'a>(text: &'a str) -> (&'a str, Option<&'a str>)
    ensures { words text.now ≡ result.0.now ∷ of_rest result.1 }
{
    match text.split_once(' ') {
        Some((word, rest)) => (word, Some(rest)),
        None => (text, None),
    }
}

impl<'a> Iterator for Words<'a> {
    type Item = &'a str;

    ghost next_gives = { NextWord };

    ghost remaining = { λ w. at_most (length (words_left w)) };

    fn next(&mut self) -> Option<&'a str> {
        let (word, rest) = cut(self.rest?);
        self.rest = rest;
        Some(word)
    }
}

impl<'a> Words<'a> {
    pub fn of(line: &'a str) -> Words<'a>
        ensures { words_left result ≡ words line.now }
    {
        Words { rest: Some(line) }
    }

    // The first word of a line, with those behind it; nothing where the line is silent, which is empty or a comment.
    pub fn spoken(line: &'a str) -> Option<(&'a str, Words<'a>)>
        ensures { MatchOption result (silent line.now ≡ true) (λ p. (silent line.now ≡ false) × (words line.now ≡ p.0.now ∷ words_left p.1)) }
    {
        if line.is_empty() || line.starts_with('#') {
            return None;
        }
        let mut words = Words::of(line);
        Some((words.next()?, words))
    }

    // The numbers of the words that are left, where there are just N and each writes one.
    pub fn numbers<const N: usize>(mut self) -> Result<[u32; N], Unreadable>
        ensures { result ≡ ok_or (exactly N (numbers_of (words_left self.entry))) unreadable }
    {
        let mut numbers = [0; N];
        for number in &mut numbers {
            *number = self.next().and_then(read_number).ok_or(Unreadable)?;
        }
        match self.next() {
            None => Ok(numbers),
            Some(_) => Err(Unreadable),
        }
    }
}
