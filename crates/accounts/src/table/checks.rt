// What the account table has against a call.
ghost use Rattle.std.specs.Prelude.{◌≡◌};
ghost use Rattle.accounts.specs.Refusals.{enrolment_refusal, change_refusal, room_refusal, table_refusal};
ghost use Rattle.accounts.specs.Views.{enrolled_in};

use crate::table::{MOST_ACCOUNTS, Table};
use calls::account_key::AccountKey;
use calls::call::Call;
use calls::change::Change;
use rules::refusal::Refusal;

impl Table {
    fn check_enrolled(&self, key: &AccountKey) -> Result<(), Refusal>
        ensures { result ≡ enrolment_refusal (enrolled_in self.now) key.now }
    {
        if !self.is_enrolled(key) {
            return Err(Refusal::NotEnrolled);
        }
        Ok(())
    }

    fn check_change(&self, change: &Change) -> Result<(), Refusal>
        ensures { result ≡ change_refusal (enrolled_in self.now) change.now }
    {
        match *change {
            Change::Phase { .. } | Change::Fast { .. } => Ok(()),
            Change::Exempt { key, .. } | Change::Quote { key, .. } | Change::Withdraw { key } => {
                self.check_enrolled(&key)
            }
        }
    }

    fn check_room(&self, key: &AccountKey) -> Result<(), Refusal>
        ensures { result ≡ room_refusal (enrolled_in self.now) key.now }
    {
        if self.is_enrolled(key) {
            return Err(Refusal::EnrolledAlready);
        }
        if self.accounts.len() >= MOST_ACCOUNTS {
            return Err(Refusal::TableFull);
        }
        Ok(())
    }

    pub fn check(&self, call: &Call) -> Result<(), Refusal>
        ensures { result ≡ table_refusal (enrolled_in self.now) call.now }
    {
        match *call {
            Call::Enrol { key, .. } => self.check_room(&key),
            Call::Strike { key } => self.check_enrolled(&key),
            Call::At { change, .. } => self.check_change(&change),
            Call::Open { .. } | Call::Close { .. } | Call::Turn => Ok(()),
        }
    }
}
