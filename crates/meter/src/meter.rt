// A meter is made of one rulebook, which is one quote rule and one month rule, and keeps one book.
ghost use Rattle.std.specs.Prelude.{◌≡◌, IfOk};
ghost use Rattle.accounts.specs.Steps.{just_made};
ghost use Rattle.book.specs.View.{view};

use book::book::Book;
use rules::month_rule::MonthRule;
use rules::quote_rule::QuoteRule;
use rules::rulebook::Rulebook;
use std::alloc::{AllocError, Global};

mod ask;
mod changing_calls;
mod run;

#[derive(Drop)]
pub struct Meter<Q, M> {
    rulebook: Rulebook<Q, M>,
    book: Book,
}

impl<Q: QuoteRule + Drop, M: MonthRule + Drop> Meter<Q, M> {
    // A meter with no account, no day open, no last date and no closed day. All the memory that it will ever need is had here.
    pub fn new(heap: Global, rulebook: Rulebook<Q, M>) -> Result<Meter<Q, M>, AllocError>
        ensures { IfOk result (λ m. (m.rulebook ≡ rulebook) × (view m.book ≡ just_made)) }
    {
        let book = Book::new(heap)?;
        Ok(Meter { rulebook, book })
    }
}
