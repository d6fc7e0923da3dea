// A two-sided quote. Prices are ten-thousandths of a euro, sizes are pieces.
ghost use Rattle.std.specs.Prelude.{◌≡◌, ◌<◌, ◌≤◌};

mod make;
mod spread;

// Every quote that exists has its bid below its ask and all four numbers within the limits.
#[derive(Clone, Copy)]
pub struct Quote {
    bid: u32,
    ask: u32,
    bid_size: u32,
    ask_size: u32,
    ghost prices: { (1 ≤ bid) × (bid < ask) × (ask ≤ 1_000_000_000) },
    ghost bids: { (1 ≤ bid_size) × (bid_size ≤ 10_000_000) },
    ghost asks: { (1 ≤ ask_size) × (ask_size ≤ 10_000_000) },
}

impl Quote {
    pub fn bid(&self) -> u32
        ensures { result ≡ self.now.bid }
    {
        self.bid
    }

    pub fn ask(&self) -> u32
        ensures { result ≡ self.now.ask }
    {
        self.ask
    }

    pub fn bid_size(&self) -> u32
        ensures { result ≡ self.now.bid_size }
    {
        self.bid_size
    }

    pub fn ask_size(&self) -> u32
        ensures { result ≡ self.now.ask_size }
    {
        self.ask_size
    }
}
