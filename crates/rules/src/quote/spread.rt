// How wide a quote is.
ghost use Rattle.std.specs.Prelude.{◌≡◌};
ghost use Rattle.rules.specs.Spreads.{spread, within_points, inside};

use crate::quote::Quote;

impl Quote {
    pub fn spread(&self) -> u32
        ensures { result ≡ spread self.now }
    {
        self.ask - self.bid
    }

    // Whether the spread is at most so many basis points of the bid.
    pub fn is_within(&self, points: u16) -> bool
        ensures { result ≡ within_points points self.now }
    {
        self.spread() as u64 * 10_000 <= points as u64 * self.bid as u64
    }

    // Whether the bid is no lower and the ask no higher than the other's.
    pub fn is_inside(&self, other: &Quote) -> bool
        ensures { result ≡ inside self.now other.now }
    {
        other.bid <= self.bid && self.ask <= other.ask
    }
}
