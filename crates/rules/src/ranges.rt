// Ranges with both ends in. A function: of ranges at each use, the proof of a quote's limits did not close.
ghost use Rattle.std.specs.Prelude.{◌≡◌};
ghost use Rattle.rules.specs.Ranges.{within};

pub fn within(low: u32, high: u32, n: u32) -> bool
    ensures { result ≡ within low high n }
{
    (low..=high).contains(&n)
}
