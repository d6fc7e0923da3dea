// What a quote rule is: which quotes meet which terms, and which quote is better than which.
ghost use Rattle.std.specs.Prelude.{◌≡◌, Bool, true};
ghost use Rattle.rules.specs.declared.quote.Quote.{Quote};
ghost use Rattle.rules.specs.declared.terms.Terms.{Terms};

use crate::quote::Quote;
use crate::terms::Terms;

pub trait QuoteRule {
    // whether the quote meets the terms
    ghost meets: { Self → Quote → Terms → Bool };

    // whether the first quote is better than the second
    ghost better: { Self → Quote → Quote → Bool };

    fn meets(&self, quote: &Quote, terms: &Terms) -> bool
        ensures { result ≡ meets self.now quote.now terms.now };

    fn is_better(&self, quote: &Quote, than: &Quote) -> bool
        ensures { result ≡ better self.now quote.now than.now };

    // Every quote is better than itself.
    ghost reflexive: { (rule : Self) (q : Quote) → better rule q q ≡ true };

    // If a quote meets terms, every better quote meets the same terms.
    ghost upward: { (rule : Self) (p q : Quote) (t : Terms) → better rule q p ≡ true → meets rule p t ≡ true → meets rule q t ≡ true };
}
