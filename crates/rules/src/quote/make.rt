// The quote of two given sides. It stands apart from the type, since what it cites names the type.
ghost use Rattle.std.specs.Prelude.{◌≡◌};
ghost use Rattle.rules.specs.Quotes.{quote_of, QuoteAnswer};

use crate::quote::Quote;
use crate::ranges::within;
use crate::refusal::Refusal;
use crate::sides::Sides;

const MAX_PRICE: u32 = 1_000_000_000;

const MAX_SIZE: u32 = 10_000_000;

// The quote of these numbers, or the first refusal that applies: the limits are asked before the order of the prices.
impl TryFrom<Sides> for Quote {
    type Error = Refusal;

    ghost try_from_gives = { λ given r. (r ≡ quote_of given) × QuoteAnswer given r };

    fn try_from(given: Sides) -> Result<Self, Refusal> {
        let Sides {
            bid,
            ask,
            bid_size,
            ask_size,
        } = given;
        let prices = within(1, MAX_PRICE, bid) && within(1, MAX_PRICE, ask);
        let in_limits = prices && within(1, MAX_SIZE, bid_size) && within(1, MAX_SIZE, ask_size);
        if !in_limits {
            return Err(Refusal::QuoteOutOfLimits);
        }
        if bid >= ask {
            return Err(Refusal::BidNotBelowAsk);
        }
        Ok(Quote {
            bid,
            ask,
            bid_size,
            ask_size,
        })
    }
}
