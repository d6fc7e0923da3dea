// The two sides of a quote as they are given, not yet held against any limit.
// Prices are ten-thousandths of a euro, sizes are pieces.
#[derive(Clone, Copy, PartialEq, Eq)]
pub struct Sides {
    pub bid: u32,
    pub ask: u32,
    pub bid_size: u32,
    pub ask_size: u32,
}
