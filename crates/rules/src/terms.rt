// The terms of an account: what its quotes are held against, and the share of the obliged time that it owes.
ghost use Rattle.std.specs.Prelude.{◌≡◌, ◌≤◌};

use crate::tier::Tier;

mod make;

// A class stays a number from 1, the row of the exchange's tables: an enum of seven would be turned back into one. Limit and
// threshold are basis points. What the minimum counts (pieces, or money) is the quote rule's to say.
#[derive(Clone, Copy)]
pub struct Terms {
    class: u8,
    tier: Tier,
    threshold: u16,
    limit: u16,
    minimum: u32,
    ghost classes: { (1 ≤ class) × (class ≤ 7) },
    ghost limits: { (1 ≤ limit) × (limit ≤ 10_000) },
    ghost minimums: { (1 ≤ minimum) × (minimum ≤ 4_000_000_000) },
    ghost thresholds: { (1 ≤ threshold) × (threshold ≤ 10_000) },
}

impl Terms {
    pub fn class(&self) -> u8
        ensures { result ≡ self.now.class }
    {
        self.class
    }

    pub fn tier(&self) -> Tier
        ensures { result ≡ self.now.tier }
    {
        self.tier
    }

    pub fn limit(&self) -> u16
        ensures { result ≡ self.now.limit }
    {
        self.limit
    }

    pub fn minimum(&self) -> u32
        ensures { result ≡ self.now.minimum }
    {
        self.minimum
    }

    pub fn threshold(&self) -> u16
        ensures { result ≡ self.now.threshold }
    {
        self.threshold
    }
}
