// BETa: the spread is limited against the middle of bid and ask, and the sizes may not be far apart.
ghost use Rattle.std.specs.Prelude.{◌≡◌, Decides};
ghost use Rattle.rules.specs.Beta.{smaller_size, larger_size, beta_meets, beta_better, MeetsBeta, BetterBeta};
ghost use Rattle.std.proofs.Common.{le_trans, arith, rules};
ghost use Rattle.rules.specs.Plainly.{beta_reads, beta_better_reads};
ghost use Rattle.rules.specs.SpreadsLemmas.{keeps_middle};

use crate::quote::Quote;
use crate::quote_rule::QuoteRule;
use crate::terms::Terms;

#[derive(Clone, Copy)]
pub struct Beta;

fn smaller_size(quote: &Quote) -> u32
    ensures { result ≡ smaller_size quote.now }
{
    quote.bid_size().min(quote.ask_size())
}

fn larger_size(quote: &Quote) -> u32
    ensures { result ≡ larger_size quote.now }
{
    quote.bid_size().max(quote.ask_size())
}

impl QuoteRule for Beta {
    ghost meets = { λ _. beta_meets };

    ghost better = { λ _. beta_better };

    ghost reflexive = { Prim.search rules };

    ghost upward = { λ rule p q t better meets.
        let b = (beta_better_reads q p).0 better in
        let m = (beta_reads p t).0 meets in
        (beta_reads q t).1 (keeps_middle t.limit p q t.limits.1 b.0 m.0, le_trans m.1 b.1, omega (arith, b.1, b.2, m.2)) };

    fn meets(&self, quote: &Quote, terms: &Terms) -> bool
        ensures value { result ≡ beta_meets quote.now terms.now }
        ensures plainly { Decides result (MeetsBeta quote.now terms.now) }
    {
        let both = quote.ask() as u64 + quote.bid() as u64;
        let smaller = smaller_size(quote);
        let larger = larger_size(quote);
        let narrow = 20_000 * quote.spread() as u64 <= terms.limit() as u64 * both;
        narrow && terms.minimum() <= smaller && larger <= 2 * smaller
    }

    fn is_better(&self, quote: &Quote, than: &Quote) -> bool
        ensures value { result ≡ beta_better quote.now than.now }
        ensures plainly { Decides result (BetterBeta quote.now than.now) }
    {
        quote.is_inside(than)
            && smaller_size(than) <= smaller_size(quote)
            && larger_size(quote) <= larger_size(than)
    }
}
