// Vienna: the widest spread goes by class and tier, and both sizes are held against the minimum.
ghost use Rattle.std.specs.Prelude.{◌≡◌, Decides};
ghost use Rattle.rules.specs.Vienna.{vienna_meets, vienna_better, MeetsVienna, BetterVienna};
ghost use Rattle.std.proofs.Common.{le_trans, rules};
ghost use Rattle.rules.specs.Plainly.{vienna_reads, vienna_better_reads};
ghost use Rattle.rules.specs.ViennaRuleLemmas.{keeps_narrow};

use crate::quote::Quote;
use crate::quote_rule::QuoteRule;
use crate::terms::Terms;
use crate::tier::Tier;

// The widest spread by class, from 1: in basis points of the bid, and in ten-thousandths of a euro. One array to a tier: each
// tier reads its own alone, and seven structs of three numbers take 35 lines and are no plainer.
const RELATIVE: [u16; 7] = [75, 100, 150, 200, 300, 400, 500];

const STAGNATING: [u16; 7] = [800, 1000, 1000, 1000, 1500, 2000, 2500];

const FIXED: [u16; 7] = [800, 1000, 1000, 1000, 1000, 1000, 1000];

#[derive(Clone, Copy)]
pub struct Vienna;

impl QuoteRule for Vienna {
    ghost meets = { λ _. vienna_meets };

    ghost better = { λ _. vienna_better };

    ghost reflexive = { Prim.search rules };

    ghost upward = { λ rule p q t better meets.
        let b = (vienna_better_reads q p).0 better in
        let m = (vienna_reads p t).0 meets in
        (vienna_reads q t).1 (keeps_narrow t.tier p q t b.0 m.0, le_trans m.1 b.1, le_trans m.2 b.2) };

    fn meets(&self, quote: &Quote, terms: &Terms) -> bool
        ensures value { result ≡ vienna_meets quote.now terms.now }
        ensures plainly { Decides result (MeetsVienna quote.now terms.now) }
    {
        let row = terms.class() as usize - 1;
        let narrow = match terms.tier() {
            Tier::Relative => quote.is_within(RELATIVE[row]),
            Tier::Stagnating => quote.spread() <= STAGNATING[row] as u32,
            Tier::Fixed => quote.spread() <= FIXED[row] as u32,
        };
        narrow && terms.minimum() <= quote.bid_size() && terms.minimum() <= quote.ask_size()
    }

    fn is_better(&self, quote: &Quote, than: &Quote) -> bool
        ensures value { result ≡ vienna_better quote.now than.now }
        ensures plainly { Decides result (BetterVienna quote.now than.now) }
    {
        quote.is_inside(than)
            && than.bid_size() <= quote.bid_size()
            && than.ask_size() <= quote.ask_size()
    }
}
