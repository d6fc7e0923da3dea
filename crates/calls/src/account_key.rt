// What names an account: one maker in one instrument, as given.
ghost use Rattle.std.specs.Prelude.{◌≡◌};
ghost use Rattle.calls.specs.Keys.{instrument_in_range, key_in_range};

use rules::ranges::within;

const MAKERS: u32 = 65_535;

const INSTRUMENTS: u32 = 32;

// Whether there is an instrument of this number.
pub fn instrument_in_range(instrument: u32) -> bool
    ensures { result ≡ instrument_in_range instrument }
{
    within(1, INSTRUMENTS, instrument)
}

#[derive(Clone, Copy, PartialEq, Eq)]
pub struct AccountKey {
    pub maker: u32,
    pub instrument: u32,
}

impl AccountKey {
    pub fn in_range(&self) -> bool
        ensures { result ≡ key_in_range self.now }
    {
        within(1, MAKERS, self.maker) && instrument_in_range(self.instrument)
    }
}
