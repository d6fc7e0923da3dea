// Time within a day, in milliseconds, with the rule and the market under which it is counted. Contracts hand its three parts to
// `settled`, `touched` and `ended`, which speak of a meter and know of no span.
ghost use Rattle.std.specs.Prelude.{◌≡◌, ◌-◌, ◌≤◌};

use crate::market::Market;

#[derive(Drop)]
pub struct Span<'a, Q> {
    pub rule: &'a Q,
    pub market: &'a Market,
    pub length: u32,
    ghost within_day: { length ≤ 86_400_000 },
}

impl<'a, Q> Span<'a, Q> {
    // The time from one stamp to another.
    pub fn between(from: u32, to: u32, rule: &'a Q, market: &'a Market) -> Span<'a, Q>
        requires order { from ≤ to }
        requires day { to ≤ 86_400_000 }
        ensures rule { result.rule.now ≡ rule.now }
        ensures market { result.market.now ≡ market.now }
        ensures length { result.length ≡ to - from }
    {
        Span {
            rule,
            market,
            length: to - from,
        }
    }
}
