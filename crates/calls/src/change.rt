// What a stamped call may set. Phases have numbers, and a flag is 0 or 1: a call takes its numbers as they come, and refuses
// what is out of range.
ghost use Rattle.std.specs.Prelude.{◌≡◌};
ghost use Rattle.calls.specs.Calls.{flag_in_range, change_in_range, sides_refusal};

use crate::account_key::{AccountKey, instrument_in_range};
use crate::phase::Phase;
use rules::quote::Quote;
use rules::refusal::Refusal;
use rules::sides::Sides;

#[derive(Clone, Copy, PartialEq, Eq)]
pub enum Change {
    Phase { instrument: u32, phase: u32 },
    Fast { flag: u32 },
    Exempt { key: AccountKey, flag: u32 },
    Quote { key: AccountKey, sides: Sides },
    Withdraw { key: AccountKey },
}

fn flag_in_range(flag: u32) -> bool
    ensures { result ≡ flag_in_range flag }
{
    flag <= 1
}

impl Change {
    // Whether maker, instrument, phase and flag are in range.
    pub fn in_range(&self) -> bool
        ensures { result ≡ change_in_range self.now }
    {
        match *self {
            Change::Phase { instrument, phase } => instrument_in_range(instrument)
                && Phase::try_from(phase).is_ok(),
            Change::Fast { flag } => flag_in_range(flag),
            Change::Exempt { key, flag } => key.in_range() && flag_in_range(flag),
            Change::Quote { key, .. } => key.in_range(),
            Change::Withdraw { key } => key.in_range(),
        }
    }

    // What is against the sides of a quote.
    pub fn check_sides(&self) -> Result<(), Refusal>
        ensures { result ≡ sides_refusal self.now }
    {
        match *self {
            Change::Quote { sides, .. } => Quote::try_from(sides).map(|_| ()),
            _ => Ok(()),
        }
    }
}
