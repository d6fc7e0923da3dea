// Zagreb: the spread is limited against the bid, and the minimum is the worth of each side.
ghost use Rattle.std.specs.Prelude.{◌≡◌, ◌*◌, Decides};
ghost use Rattle.rules.specs.Zagreb.{zagreb_meets, zagreb_better, MeetsZagreb, BetterZagreb};
ghost use Rattle.std.proofs.Common.{mul-le-mul, le_trans, rules};
ghost use Rattle.rules.specs.Plainly.{zagreb_reads, zagreb_better_reads};
ghost use Rattle.rules.specs.SpreadsLemmas.{keeps_within};

use crate::quote::Quote;
use crate::quote_rule::QuoteRule;
use crate::terms::Terms;

#[derive(Clone, Copy)]
pub struct Zagreb;

fn worth(price: u32, size: u32) -> u64
    ensures { result ≡ price * size }
{
    price as u64 * size as u64
}

impl QuoteRule for Zagreb {
    ghost meets = { λ _. zagreb_meets };

    ghost better = { λ _. zagreb_better };

    ghost reflexive = { Prim.search rules };

    ghost upward = { λ rule p q t better meets.
        let b = (zagreb_better_reads q p).0 better in
        let m = (zagreb_reads p t).0 meets in
        (zagreb_reads q t).1 (keeps_within t.limit p q b.0 m.0, le_trans m.1 (mul-le-mul b.0.0 b.1), le_trans m.2 b.2) };

    fn meets(&self, quote: &Quote, terms: &Terms) -> bool
        ensures value { result ≡ zagreb_meets quote.now terms.now }
        ensures plainly { Decides result (MeetsZagreb quote.now terms.now) }
    {
        let minimum = terms.minimum() as u64;
        quote.is_within(terms.limit())
            && minimum <= worth(quote.bid(), quote.bid_size())
            && minimum <= worth(quote.ask(), quote.ask_size())
    }

    fn is_better(&self, quote: &Quote, than: &Quote) -> bool
        ensures value { result ≡ zagreb_better quote.now than.now }
        ensures plainly { Decides result (BetterZagreb quote.now than.now) }
    {
        quote.is_inside(than)
            && than.bid_size() <= quote.bid_size()
            && worth(than.ask(), than.ask_size()) <= worth(quote.ask(), quote.ask_size())
    }
}
