// The calls that change a meter, with their fields as given.
ghost use Rattle.std.specs.Prelude.{◌≡◌};
ghost use Rattle.calls.specs.Calls.{call_in_range, value_refusal, field_refusal};

use crate::account_key::AccountKey;
use crate::change::Change;
use crate::date::Date;
use crate::stamp::END_OF_DAY;
use rules::conditions::Conditions;
use rules::refusal::Refusal;
use rules::terms::Terms;

#[derive(Clone, Copy, PartialEq, Eq)]
pub enum Call {
    Enrol {
        key: AccountKey,
        conditions: Conditions,
    },
    Strike {
        key: AccountKey,
    },
    Open {
        date: Date,
    },
    // the five calls that set something from a stamp on
    At {
        stamp: u32,
        change: Change,
    },
    Close {
        stamp: u32,
    },
    Turn,
}

impl Call {
    // Whether maker, instrument, stamp, phase and flag are in range.
    fn in_range(&self) -> bool
        ensures { result ≡ call_in_range self.now }
    {
        match *self {
            Call::Enrol { key, .. } => key.in_range(),
            Call::Strike { key } => key.in_range(),
            Call::Open { .. } => true,
            Call::At { stamp, change } => stamp <= END_OF_DAY && change.in_range(),
            Call::Close { stamp } => stamp <= END_OF_DAY,
            Call::Turn => true,
        }
    }

    // What is against the values that the call carries.
    fn check_values(&self) -> Result<(), Refusal>
        ensures { result ≡ value_refusal self.now }
    {
        match *self {
            Call::Enrol { conditions, .. } => Terms::try_from(conditions).map(|_| ()),
            Call::Open { date } => if date.exists() {
                Ok(())
            } else {
                Err(Refusal::NoSuchDate)
            },
            Call::At { change, .. } => change.check_sides(),
            _ => Ok(()),
        }
    }

    // What is against the call's own fields.
    pub fn check_fields(&self) -> Result<(), Refusal>
        ensures { result ≡ field_refusal self.now }
    {
        if !self.in_range() {
            return Err(Refusal::FieldOutOfRange);
        }
        self.check_values()
    }
}
