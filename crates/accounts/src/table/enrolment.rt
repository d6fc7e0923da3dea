// Making the table, finding an account in it, adding and removing one.
ghost use Rattle.std.specs.Prelude.{◌≡◌, ◌<◌, [], ◌∷◌, ◌++◌, length, position, IfOk};
ghost use Rattle.accounts.specs.Accounts.{is, newly_enrolled, key_at};
ghost use Rattle.accounts.specs.Refusals.{account_of, enrolled};
ghost use Rattle.accounts.specs.Lists.{without};
ghost use Rattle.accounts.specs.Views.{enrolled_in};

use crate::account::Account;
use crate::table::{MOST_ACCOUNTS, Table};
use calls::account_key::AccountKey;
use rules::terms::Terms;
use std::alloc::{AllocError, Global};

impl Table {
    pub fn new(heap: Global) -> Result<Table, AllocError>
        ensures { IfOk result (λ t. enrolled_in t ≡ []) }
    {
        let accounts = Vec::with_capacity(heap, MOST_ACCOUNTS)?;
        Ok(Table { accounts })
    }

    // Where the account stands that the key names.
    fn position(&self, key: &AccountKey) -> Option<usize>
        ensures { result ≡ position (is key.now) (enrolled_in self.now) }
    {
        self.accounts.iter().position(|account| account.is(key))
    }

    // The account that the key names.
    pub fn account(&self, key: &AccountKey) -> Option<Account>
        ensures { result ≡ account_of key.now (enrolled_in self.now) }
    {
        self.accounts
            .iter()
            .find(|account| account.is(key))
            .copied()
    }

    pub fn is_enrolled(&self, key: &AccountKey) -> bool
        ensures { result ≡ enrolled key.now (enrolled_in self.now) }
    {
        self.account(key).is_some()
    }

    // What names the account at a place, in order of enrolment from 0.
    pub fn key_at(&self, place: usize) -> Option<AccountKey>
        ensures { result ≡ key_at (enrolled_in self.now) place }
    {
        self.accounts.get(place).map(|account| account.key())
    }

    // One account more, behind the others.
    pub fn enrol(&mut self, key: AccountKey, terms: Terms)
        requires { length (enrolled_in self.old) < 128 }
        ensures { enrolled_in self.new ≡ enrolled_in self.old ++ newly_enrolled key terms ∷ [] }
    {
        self.accounts.push_reserved(Account::new(key, terms));
    }

    // The account goes; those behind it move up.
    #[tactic(auto, using(crate::proofs::Positions::without_at, crate::proofs::Positions::without_none))]
    pub fn strike(&mut self, key: &AccountKey)
        ensures { enrolled_in self.new ≡ without (is key.now) (enrolled_in self.old) }
    {
        if let Some(i) = self.position(key) {
            let _ = self.accounts.remove(i);
        }
    }
}
